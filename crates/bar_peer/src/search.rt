use crate::arrival::Arrival;
use crate::credentials::Credentials;
use bar_ledger::Ledger;
use bar_terms::Table;

/// A search for the evidence that a datagram completes: the datagram, and the parts of a peer's memory that the search reads.
#[derive(Clone, Copy)]
pub struct Search<'a> {
    pub who: &'a Credentials,
    pub table: &'a Table,
    pub ledger: &'a Ledger,
    pub arrival: &'a Arrival<'a>,
}
