ghost use Rattle.std.specs.Prelude.{◌≡◌, ◌↔◌, IsTrue};

/// What is known of a cell.
#[derive(Clone, Copy, Debug)]
pub enum Mark {
    /// It does not depend on itself.
    Free,
    /// It depends on itself.
    Looped,
    /// Nothing yet.
    New,
}

pub fn is_new(mark: Mark) -> bool
    ensures { IsTrue result ↔ (mark ≡ Mark.New) }
{
    match mark {
        Mark::Free => false,
        Mark::Looped => false,
        Mark::New => true,
    }
}

pub fn is_looped(mark: Mark) -> bool
    ensures { IsTrue result ↔ (mark ≡ Mark.Looped) }
{
    match mark {
        Mark::Free => false,
        Mark::Looped => true,
        Mark::New => false,
    }
}
