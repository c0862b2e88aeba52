ghost use Rattle.std.specs.Prelude.{◌≡◌};
ghost use Rattle.image_store.specs.Calls.{is_next_failing, IsCalled, IsUncalled};

/// The calls of an object in memory that are to fail, and the number of its next call.
#[derive(Drop)]
pub struct Failing {
    list: Vec<u64>,
    calls: u64,
}

impl Failing {
    /// The calls of this list fail, numbered from 0.
    pub fn make(list: Vec<u64>) -> Failing
        ensures { IsUncalled list.items result }
    {
        Failing { list, calls: 0 }
    }

    /// Counts a call, and tells whether it is to fail.
    pub fn next_fails(&mut self) -> bool
        ensures answer { result ≡ is_next_failing self.old }
        ensures counted { IsCalled self.old self.new }
    {
        let call = self.calls;
        self.calls = self.calls.saturating_add(1);
        self.list.contains(&call)
    }
}
