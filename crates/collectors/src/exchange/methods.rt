// Making and reading an exchange.
ghost use Rattle.std.specs.Prelude.{◌≡◌, ◌&&◌, MatchOption, nat_le};
ghost use Rattle.collectors.specs.Links.{MayExchange};
ghost use Rattle.collectors.specs.Exchanges.{is_forward, said_by};

use super::{Exchange, Kind};

// Own numbers of links are at most 60.
const MOST_NUMBER: u32 = 60;

impl Exchange {
    // The exchange of two links; none where a number is not 1 to 60, or both are the same.
    pub fn new(kind: Kind, link_out: u32, link_in: u32) -> Option<Exchange>
        ensures { MatchOption result (¬ MayExchange link_out link_in) (λ x. MayExchange link_out link_in × (said_by x ≡ (is_forward kind, (link_out, link_in)))) }
    {
        if !is_number(link_out) || !is_number(link_in) || link_out == link_in {
            return None;
        }
        Some(Exchange {
            kind,
            link_out,
            link_in,
        })
    }

    // Whether it goes forward or back.
    pub fn kind(&self) -> Kind
        ensures { result ≡ self.now.kind }
    {
        self.kind
    }

    // The link that is opened.
    pub fn link_out(&self) -> u32
        ensures { result ≡ (said_by self.now).1.0 }
    {
        self.link_out
    }

    // The link that is closed.
    pub fn link_in(&self) -> u32
        ensures { result ≡ (said_by self.now).1.1 }
    {
        self.link_in
    }
}

// Whether a number is 1 to 60.
fn is_number(link: u32) -> bool
    ensures { result ≡ (nat_le 1 link && nat_le link 60) }
{
    (1..=MOST_NUMBER).contains(&link)
}
