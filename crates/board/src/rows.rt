// Rows of bytes, read.
ghost use Rattle.std.specs.Prelude.{◌≡◌};
ghost use Rattle.survey.specs.Answers.{net_of};
ghost use Rattle.flood.specs.Marked.{switched};
ghost use Rattle.flood.specs.Rows.{OneALink};
ghost use Rattle.board.specs.Rows.{is_closing_byte, setting_in};

use flood::Switches;
use survey::Surveyed;

// Whether a byte means closed.
fn means_closed(byte: u8) -> bool
    ensures { result ≡ is_closing_byte byte }
{
    byte == 1
}

// The setting of a row.
pub(crate) fn read_row(site: &Surveyed, row: &[u8]) -> Switches
    requires { OneALink (net_of site.now) row.now }
    ensures site { result.site ≡ site.now }
    ensures row { switched result ≡ setting_in row.now }
{
    let mut switches = Switches::new(site);
    for (at, byte) in row.iter().enumerate() {
        switches.put(at as u64 + 1, means_closed(*byte));
    }
    switches
}
