// Scoped access to services with positive-response suppression enabled.
use crate::Client;

// A view of a `UDSClient` that sets bit 7 of the sub-function.
pub type SuppressedUDSClient = Client<true>;
