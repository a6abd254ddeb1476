// What a packer writes next.

#[derive(Clone, Copy)]
pub(crate) enum Stage {
    // The net and its start links.
    Head,
    // The exchanges.
    Exchanges,
    // The settings told.
    End,
    // Nothing more.
    Done,
}
