// The head of a stream.
ghost use Rattle.std.specs.Prelude.{◌≡◌, length};
ghost use Rattle.survey.specs.Surveys.{start_links};
ghost use Rattle.survey.specs.Answers.{net_of};
ghost use Rattle.stream.specs.Records.{head_bytes};
ghost use Rattle.stream.specs.Writers.{Writes};

use arrayvec::ArrayVec;
use faults::CollectorFault;
use net::NetSource;
use stream::Writer;
use survey::Surveyed;

// Writes the net and its start links by rank; refused where they do not fit.
pub(crate) fn put_head(site: &Surveyed, writer: &mut Writer) -> Result<(), CollectorFault>
    ensures { Writes (head_bytes (net_of site.now).bars (length (net_of site.now).links) (start_links (net_of site.now))) writer.old result writer.new }
{
    let starts = start_numbers(site);
    writer.head(site.bars() as u16, site.links() as u16, &starts)
}

// The start links by rank, in the width of a stream's numbers, which each cast is proved to keep: a `try_from` would never refuse.
fn start_numbers(site: &Surveyed) -> ArrayVec<u16, 32>
    ensures { result.items ≡ start_links (net_of site.now) }
{
    let mut numbers = ArrayVec::new();
    for link in site.start_links() {
        numbers.push(*link as u16);
    }
    numbers
}
