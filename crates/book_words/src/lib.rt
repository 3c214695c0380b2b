// The words that `udsbook` is started with, and the command that they are.
#![tactic(auto)]

ghost use Rattle.std.specs.Prelude.{◌≡◌};
ghost use Rattle.book_words.specs.Words.{number_in, find_of, command_of};

#[derive(Clone, Copy)]
pub enum Command {
    New,
    Add,
    // the call, and the log's number among those of this call
    Find(u64, u64),
    Summary,
}

// "CALL and K decimal, up to 2^64 - 1"
fn number_in(word: &[u8]) -> Option<u64>
    ensures { result ≡ number_in word.now }
{
    if word.is_empty() {
        return None;
    }
    let mut value = 0u64;
    for &byte in word {
        if !byte.is_ascii_digit() {
            return None;
        }
        value = value.checked_mul(10)?.checked_add(u64::from(byte - b'0'))?;
    }
    Some(value)
}

// "udsbook find BOOK CALL K"
fn find_of(call: &[u8], k: &[u8]) -> Option<Command>
    ensures { result ≡ find_of (number_in call.now) (number_in k.now) }
{
    Some(Command::Find(number_in(call)?, number_in(k)?))
}

// The command that so many words are, the program's name among them: the word behind the name, whether there is a file BOOK to read, and the
// words CALL and K, whatever they are where there are none. None is wrong usage.
#[tactic(auto, using(crate::proofs::Commands::same_is), unfolding(crate::specs::Words::command_of))]
pub fn command_of(words: usize, word: &[u8], book: bool, call: &[u8], k: &[u8]) -> Option<Command>
    ensures { result ≡ command_of words word.now book call.now k.now }
{
    match (words, book) {
        (2, _) if word == b"new".as_slice() => Some(Command::New),
        (3, true) if word == b"add".as_slice() => Some(Command::Add),
        (3, true) if word == b"summary".as_slice() => Some(Command::Summary),
        (5, true) if word == b"find".as_slice() => find_of(call, k),
        _ => None,
    }
}
