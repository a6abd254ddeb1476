// Rows of one byte a link.
ghost use Rattle.std.specs.Prelude.{◌≡◌};
ghost use Rattle.survey.specs.Answers.{net_of};
ghost use Rattle.flood.specs.Marked.{switched};
ghost use Rattle.flood.specs.Rows.{OneALink, row_of};

use crate::switches::Switches;

// Writes which links are closed into a row.
pub(crate) fn write_row(switches: &Switches, row: &mut [u8])
    requires { OneALink (net_of switches.now.site) row.old }
    ensures { row.new ≡ row_of (switched switches.now) }
{
    for (at, byte) in row.iter_mut().enumerate() {
        *byte = u8::from(switches.has_closed(at as u64 + 1));
    }
}
