// Writing the stream.
ghost use Rattle.std.specs.Prelude.{◌≡◌, length, ◌==◌};
ghost use Rattle.survey.specs.Surveys.{start_setting};
ghost use Rattle.survey.specs.Answers.{net_of};
ghost use Rattle.replay.specs.Streams.{Accepts};
ghost use Rattle.roundtrip.specs.declared.stage.Stage.{Stage};
ghost use Rattle.roundtrip.specs.Packs.{settings_of, stream_records, stream_of};
ghost use Rattle.roundtrip.specs.Packers.{net_packed, coming_of, Fills};

use super::Packer;
use crate::head::put_head;
use crate::stage::Stage;
use stream::Writer;
use survey::Surveyed;
use walk::Walk;

impl Packer {
    // A packer that has written nothing. Once all is written, the bytes joined are accepted by a replay on the net, at the start setting, with the settings told.
    pub fn new(site: &Surveyed) -> Packer
        ensures net { net_packed result ≡ net_of site.now }
        ensures coming { coming_of result ≡ stream_records (net_of site.now) }
        ensures accepted { Accepts (net_of site.now) (stream_of (net_of site.now)) (start_setting (net_of site.now)) (settings_of (net_of site.now)) }
    {
        Packer::start(site)
    }

    // Writes the next records of the stream behind what a writer has written, as far as they fit.
    pub fn fill(&mut self, writer: &mut Writer)
        ensures { Fills writer.old self.old writer.new self.new }
    {
        match self.stage {
            Stage::Head => self.fill_head(writer),
            Stage::Exchanges => self.fill_exchanges(writer),
            Stage::End => self.fill_end(writer),
            Stage::Done => {}
        }
    }

    // Whether the whole stream is written.
    #[tactic(auto, using(crate::proofs::Packed::done_coming, crate::proofs::Packed::not_done_coming))]
    pub fn is_done(&self) -> bool
        ensures { result ≡ (length (coming_of self.now) == 0) }
    {
        matches!(self.stage, Stage::Done)
    }

    // At the head of the stream.
    fn start(site: &Surveyed) -> Packer
        ensures net { net_packed result ≡ net_of site.now }
        ensures coming { coming_of result ≡ stream_records (net_packed result) }
    {
        Packer {
            walk: Walk::new(site),
            stage: Stage::Head,
        }
    }

    // Writes the net and its start links.
    fn fill_head(&mut self, writer: &mut Writer)
        requires { self.old.stage ≡ Stage.Head }
        ensures { Fills writer.old self.old writer.new self.new }
    {
        if put_head(self.walk.site(), writer).is_ok() {
            self.stage = Stage::Exchanges;
        }
    }

    // Writes as many exchanges as fit.
    fn fill_exchanges(&mut self, writer: &mut Writer)
        requires { self.old.stage ≡ Stage.Exchanges }
        ensures { Fills writer.old self.old writer.new self.new }
    {
        self.walk.advance(u64::MAX, writer);
        if self.walk.look().finished {
            self.stage = Stage::End;
        }
    }

    // Writes the settings told.
    fn fill_end(&mut self, writer: &mut Writer)
        requires { self.old.stage ≡ Stage.End }
        ensures { Fills writer.old self.old writer.new self.new }
    {
        if writer.end(self.walk.look().settings).is_ok() {
            self.stage = Stage::Done;
        }
    }
}
