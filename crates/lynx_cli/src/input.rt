//! The input: a set text, a line that is exactly `--`, and a script.
ghost use Rattle.std.specs.Prelude.{◌≡◌, ◌≢◌, true, false, IfSome, IfNone, codes};
ghost use Rattle.lynx_cli.specs.Inputs.{IsCut, HasNoCut};

use lynx_lex::lines::next_line;

/// Cuts the input at its first line that is exactly `--`, with its LF or at the very end: the text
/// before the line, and the text behind it. None where no line is `--`.
pub fn split_input(input: &[u8]) -> Option<(&[u8], &[u8])>
    ensures cut { IfSome result (λ parts. IsCut input.now parts.0.now parts.1.now) }
    ensures none { IfNone result (HasNoCut input.now) }
{
    let mut read = 0;
    let mut rest = input;
    while let Some((line, after)) = next_line(rest) {
        if is_separator(line) {
            return Some((&input[..read], after));
        }
        read += line.len() + 1;
        rest = after;
    }
    if is_separator(rest) {
        Some((&input[..read], &[]))
    } else {
        None
    }
}

fn is_separator(line: &[u8]) -> bool
    ensures yes { result ≡ true → line.now ≡ codes "--" }
    ensures no { result ≡ false → line.now ≢ codes "--" }
{
    line == b"--".as_slice()
}
