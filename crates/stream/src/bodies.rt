// The bodies of records as parts of a stream, and the numbers in them.
ghost use Rattle.std.specs.Prelude.{◌≡◌, ◌++◌, take, drop};
ghost use Rattle.stream.specs.Records.{big_endian, record_bytes};
ghost use Rattle.stream.specs.Fronts.{Fitting};
ghost use Rattle.stream.specs.Bodies.{bytes_in, number_in, record_in, record_of};

// A record of a stream: its kind, and the bytes of its body where they stand.
#[derive(Clone, Copy)]
pub enum Body<'a> {
    Net(&'a [u8; 4]),
    Start(&'a [u8; 2]),
    Forward(&'a [u8; 4]),
    Back(&'a [u8; 4]),
    End(&'a [u8; 8]),
}

// What a record says. Forward and back are two kinds of record, as in the stream: one case with a kind in it would be matched twice.
#[derive(Clone, Copy, PartialEq, Eq, Debug)]
pub enum Entry {
    Net { bars: u16, links: u16 },
    Start { link: u16 },
    Forward { link_out: u16, link_in: u16 },
    Back { link_out: u16, link_in: u16 },
    End { settings: u64 },
}

impl Body<'_> {
    // The numbers of the record.
    pub fn decode(&self) -> Entry
        ensures said { record_of result ≡ record_in self.now }
        ensures fits { Fitting (record_of result) }
        ensures bytes { record_bytes (record_of result) ≡ bytes_in self.now }
    {
        match *self {
            Body::Net(body) => {
                let (bars, links) = pair(body);
                Entry::Net { bars, links }
            }
            Body::Start(body) => Entry::Start { link: single(body) },
            Body::Forward(body) => {
                let (link_out, link_in) = pair(body);
                Entry::Forward { link_out, link_in }
            }
            Body::Back(body) => {
                let (link_out, link_in) = pair(body);
                Entry::Back { link_out, link_in }
            }
            Body::End(body) => Entry::End {
                settings: count(body),
            },
        }
    }
}

// The two numbers of four bytes.
fn pair(body: &[u8; 4]) -> (u16, u16)
    ensures first { result.0 ≡ number_in (take 2 body.now) }
    ensures second { result.1 ≡ number_in (drop 2 body.now) }
    ensures bytes { big_endian 2 result.0 ++ big_endian 2 result.1 ≡ body.now }
{
    let [first_high, first_low, second_high, second_low] = *body;
    (
        u16::from_be_bytes([first_high, first_low]),
        u16::from_be_bytes([second_high, second_low]),
    )
}

// The number of two bytes.
fn single(body: &[u8; 2]) -> u16
    ensures number { result ≡ number_in body.now }
    ensures bytes { big_endian 2 result ≡ body.now }
{
    u16::from_be_bytes(*body)
}

// The number of eight bytes.
fn count(body: &[u8; 8]) -> u64
    ensures number { result ≡ number_in body.now }
    ensures bytes { big_endian 8 result ≡ body.now }
{
    u64::from_be_bytes(*body)
}
