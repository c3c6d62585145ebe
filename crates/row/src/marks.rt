ghost use Rattle.std.specs.Prelude.{◌≡◌, ℕ};
ghost use Rattle.row.specs.Rows.{mark_in};

/// Whether goal `g` is among the marks; from goal 8 up none is.
pub fn has_mark(marks: u8, g: u16) -> bool
    ensures { result ≡ mark_in marks g }
{
    g < 8 && (marks >> g) % 2 == 1
}
