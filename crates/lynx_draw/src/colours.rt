//! The colours of pictures.

ghost use Rattle.std.specs.Prelude.{◌≡◌};
ghost use Rattle.lynx_draw.specs.Colours.{colour_at};

/// The colour of that number: light enough to be written on, and told apart by those who see few
/// colours. There are 16, and after the last comes the first again.
pub fn colour_at(number: usize) -> &'static [u8]
    ensures { result.now ≡ colour_at number }
{
    match number % 16 {
        0 => b"#99ddff",
        1 => b"#eedd88",
        2 => b"#bbcc33",
        3 => b"#ffaabb",
        4 => b"#77aadd",
        5 => b"#ee8866",
        6 => b"#44bb99",
        7 => b"#dddddd",
        8 => b"#cceeff",
        9 => b"#eeeebb",
        10 => b"#ccddaa",
        11 => b"#ffcccc",
        12 => b"#bbccee",
        13 => b"#e8cdef",
        14 => b"#aaaa00",
        _ => b"#ffffff",
    }
}
