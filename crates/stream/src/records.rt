// The records of a stream. Their letters stand as letters, here and in the patterns of a front: names would only hide them.
ghost use Rattle.std.specs.Prelude.{◌≡◌, ◌+◌, ◌*◌, nat_le};
ghost use Rattle.collectors.specs.Exchanges.{said_by};
ghost use Rattle.stream.specs.Records.{net_bytes, start_bytes, exchange_bytes, end_bytes};

use collectors::{Exchange, Kind};

// How many bytes each record has.
pub(crate) const NET_BYTES: usize = 5;

pub(crate) const START_BYTES: usize = 3;

pub(crate) const EXCHANGE_BYTES: usize = 5;

pub(crate) const END_BYTES: usize = 9;

// The record of a net's bars and links.
pub(crate) fn net_record(bars: u16, links: u16) -> [u8; NET_BYTES]
    ensures { result ≡ net_bytes bars links }
{
    let [bars_high, bars_low] = bars.to_be_bytes();
    let [links_high, links_low] = links.to_be_bytes();
    [b'N', bars_high, bars_low, links_high, links_low]
}

// The record of a start link.
pub(crate) fn start_record(link: u16) -> [u8; START_BYTES]
    ensures { result ≡ start_bytes link }
{
    let [high, low] = link.to_be_bytes();
    [b'S', high, low]
}

// The record of an exchange. Its links are at most 60, so the casts lose nothing, and a `try_from` would never refuse.
pub(crate) fn exchange_record(exchange: Exchange) -> [u8; EXCHANGE_BYTES]
    ensures { result ≡ exchange_bytes (said_by exchange) }
{
    let letter = match exchange.kind() {
        Kind::Forward => b'F',
        Kind::Back => b'B',
    };
    let [out_high, out_low] = (exchange.link_out() as u16).to_be_bytes();
    let [in_high, in_low] = (exchange.link_in() as u16).to_be_bytes();
    [letter, out_high, out_low, in_high, in_low]
}

// The record of the settings told.
pub(crate) fn end_record(settings: u64) -> [u8; END_BYTES]
    ensures { result ≡ end_bytes settings }
{
    let [b7, b6, b5, b4, b3, b2, b1, b0] = settings.to_be_bytes();
    [b'Z', b7, b6, b5, b4, b3, b2, b1, b0]
}

// Whether a head with so many start links fits into the bytes left.
pub(crate) fn head_fits(starts: usize, left: usize) -> bool
    ensures { result ≡ nat_le (5 + 3 * starts) left }
{
    left >= NET_BYTES && starts <= (left - NET_BYTES) / START_BYTES
}
