// Where nets come from.
ghost use Rattle.std.specs.Prelude.{◌≡◌, length};
ghost use Rattle.net.specs.Nets.{Net, ends_of};

// A source of one net. Its meaning is that net; a question changes nothing and answers alike each time.
pub trait NetSource {
    ghost meaning: { Self → Net };

    // The number of bars.
    fn bars(&self) -> u32
        ensures { result ≡ (meaning self.now).bars };

    // The number of links.
    fn links(&self) -> u64
        ensures { result ≡ length (meaning self.now).links };

    // The two bars of link i; none where it is out of service or i is no link.
    fn ends(&self, i: u64) -> Option<(u32, u32)>
        ensures { result ≡ ends_of (meaning self.now) i };
}
