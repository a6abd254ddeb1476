// What stands at the front of a stream.
ghost use Rattle.std.specs.Prelude.{◌≡◌, length};
ghost use Rattle.stream.specs.Readers.{Found};

use crate::bodies::Body;
use faults::StreamFault;

// The record at the front, and the rest of the stream; none at the end.
pub(crate) fn front(bytes: &[u8], place: u64) -> Result<Option<(Body<'_>, &[u8])>, StreamFault>
    ensures { Found bytes.now place result }
{
    match bytes {
        [b'N', _, _, _, _, rest @ ..] => Ok(Some((Body::Net(whole(&bytes[1..5])), rest))),
        [b'S', _, _, rest @ ..] => Ok(Some((Body::Start(whole(&bytes[1..3])), rest))),
        [b'F', _, _, _, _, rest @ ..] => Ok(Some((Body::Forward(whole(&bytes[1..5])), rest))),
        [b'B', _, _, _, _, rest @ ..] => Ok(Some((Body::Back(whole(&bytes[1..5])), rest))),
        [b'Z', _, _, _, _, _, _, _, _, rest @ ..] => Ok(Some((
            Body::End(whole(&bytes[1..9])),
            rest,
        ))),
        [b'N' | b'S' | b'F' | b'B' | b'Z', ..] => Err(StreamFault::BodyCut(place)),
        [_, ..] => Err(StreamFault::UnknownKind(place)),
        [] => Ok(None),
    }
}

// Bytes that are as many as a body has; they are taken beside the pattern, since none binds a part in the middle as an array.
fn whole<const N: usize>(bytes: &[u8]) -> &[u8; N]
    requires { length bytes.now ≡ N }
    ensures { result.now ≡ bytes.now }
{
    bytes.first_chunk().unwrap()
}
