// Exchanges.
ghost use Rattle.std.specs.Prelude.{◌≢◌};
ghost use Rattle.collectors.specs.Links.{IsNumber};

mod methods;

// Forward, to a child, or back to the parent.
#[derive(Clone, Copy, PartialEq, Eq, Debug)]
pub enum Kind {
    Forward,
    Back,
}

// One link is opened and another closed: two different numbers of 1 to 60.
#[derive(Clone, Copy)]
pub struct Exchange {
    kind: Kind,
    link_out: u32,
    link_in: u32,
    ghost out_number: { IsNumber link_out },
    ghost in_number: { IsNumber link_in },
    ghost different: { link_out ≢ link_in },
}
