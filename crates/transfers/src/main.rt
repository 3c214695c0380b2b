// A worked path from a session to a download and its transfers: the timing that the session gave, the block length that call 11 returned, the blocks cut,
// each sent by call 13 with its counter and answered.
#![tactic(auto)]

use calls::{Answered, Ask};
use exchange::types::{Channel, Form, Timing};
use log_line::answers::put_answer;
use requests::Call;
use std::io;
use text::LONGEST;
use uds::UDSClient;

fn say(rt: &impl Print, text: &[u8]) -> io::Result<()> {
    rt.write_all(text)
}

// The line of an answer.
fn show(rt: &impl Print, answered: Answered, replies: &[u8]) -> io::Result<()> {
    let mut line = [0u8; LONGEST];
    let answer = answered.answer;
    match put_answer(&mut line, answer, replies) {
        Some(n) => say(rt, wire::part(&line, 0, n)),
        None => Ok(()),
    }
}

// Block k of the data, sent with its counter; the controller echoes it after 12 ms.
fn transfer(
    rt: &impl Print,
    client: UDSClient,
    data: &[u8],
    length: u64,
    k: u64,
) -> io::Result<()> {
    match blocks::counter(data, length, k) {
        Ok(counter) => {
            let block = blocks::block(data, length, k);
            let mut request = [0u8; 64];
            let events = [0, 0, 0, 12, 0, 0, 0, 0, 0, 2];
            let replies = [0x76, counter];
            let answered = client.transfer_data(
                counter,
                Some(block),
                &mut request,
                &events,
                &replies,
            );
            print!(rt; "block {counter} ")?;
            say(rt, wire::part(&request, 2, block.len()))?;
            say(rt, b": ")?;
            show(rt, answered, &replies)
        }
        Err(refusal) => {
            let number = u8::from(refusal);
            println!(rt; "no further block: refused {number}")
        }
    }
}

// Who answers: a record of the controller's, handed out as a part of the reply bytes.
fn identify(rt: &impl Print) -> io::Result<()> {
    let session = Timing { p2: 50, star: 5000 };
    let ask = Ask {
        call: Call::ReadDataByIdentifier(0xf18a),
        quiet: false,
        strict: true,
        server: false,
        overall: None,
        limit: None,
        channel: Channel {
            form: Form::Plain,
            listens: 0,
        },
    };
    let mut request = [0u8; 64];
    let events = [0, 0, 0, 8, 0, 0, 0, 0, 0, 8];
    let replies = [0x62, 0xf1, 0x8a, 0x48, 0x6f, 0x69, 0x73, 0x74];
    let record = sessions::data_in_session(
        session,
        ask,
        &mut request,
        b"",
        b"",
        b"",
        &events,
        &replies,
    );
    say(rt, b"controller: ")?;
    say(rt, record)?;
    say(rt, b"\n")
}

// An extended session, whose answer has a P2 of 25 ms; then silence, which ends at that time.
fn open(rt: &impl Print, client: UDSClient) -> io::Result<UDSClient> {
    let mut request = [0u8; 64];
    let events = [0, 0, 0, 5, 0, 0, 0, 0, 0, 6];
    let replies = [0x50, 0x03, 0x00, 0x19, 0x01, 0xf4];
    let opened = client.diagnostic_session_control(3, &mut request, &events, &replies);
    say(rt, b"session: ")?;
    show(rt, opened, &replies)?;
    let behind = client.after(opened);
    say(rt, b"silence: ")?;
    show(rt, behind.tester_present(&mut request, b"", b""), b"")?;
    Ok(behind)
}

fn main(rt: HostRuntime) -> io::Result<()> {
    identify(&rt)?;
    let data = b"Bintrochis";
    let client = open(&rt, UDSClient::new())?;
    let mut request = [0u8; 64];
    let events = [0, 0, 0, 10, 0, 0, 0, 0, 0, 3];
    // the controller takes requests of six bytes: SID, counter and four bytes of data
    let replies = [0x74, 0x10, 0x06];
    let started = client.request_download(
        0,
        0,
        &[0x20, 0x00],
        &[0x0a],
        &mut request,
        &events,
        &replies,
    );
    say(&rt, b"download: ")?;
    show(&rt, started, &replies)?;
    let length = started.number;
    transfer(&rt, client, data, length, 0)?;
    transfer(&rt, client, data, length, 1)?;
    transfer(&rt, client, data, length, 2)?;
    transfer(&rt, client, data, length, 3)
}
