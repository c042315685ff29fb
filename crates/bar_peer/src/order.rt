use bar_exchange::Say;

/// What is to be sent: a datagram of an exchange, or a report of the evidence against a party.
#[derive(Clone, Copy, Debug)]
pub enum Order {
    Say(Say),
    Report(u16),
}
