// Marks on numbers.
ghost use Rattle.std.specs.Prelude.{◌≡◌, false, length, replicate};
ghost use Rattle.net.specs.Nets.{nth, put};

// For each of the numbers 1 to N whether it is marked: links that are closed, bars that are fed.
#[derive(Clone, Copy)]
pub struct Marks<const N: usize> {
    marked: [bool; N],
    ghost long: { length marked ≡ N },
}

impl<const N: usize> Marks<N> {
    // No number is marked.
    pub fn new() -> Marks<N>
        ensures { result.marked ≡ replicate N false }
    {
        Marks { marked: [false; N] }
    }

    // Whether a number is marked; no for what is none of the numbers.
    // Two comparisons, here and in `put`: with the range's `contains`, and a match in `touch`, a listing took a tenth longer.
    pub fn has(&self, number: u64) -> bool
        ensures { result ≡ nth self.now.marked number false }
    {
        if number < 1 || number > N as u64 {
            return false;
        }
        self.marked[number as usize - 1]
    }

    // Marks a number, or takes its mark away.
    pub fn put(&mut self, number: u64, mark: bool)
        ensures { self.new.marked ≡ put self.old.marked number mark }
    {
        if number < 1 || number > N as u64 {
            return;
        }
        let at = number as usize - 1;
        self.marked[at] = mark;
    }
}
