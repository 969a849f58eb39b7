ghost use Rattle.std.specs.Prelude.{◌≡◌, ◌<◌, ◌++◌, [], ◌∷◌, length, MatchOption, IfSome};
ghost use Rattle.draw_lines.specs.Inputs.{pieces, IsFirstPiece, IsFirstLine};
ghost use Rattle.draw_lines.specs.Inputs.{after_separator, is_separator, head_of, command_lines};
ghost use Rattle.draw_lines.specs.Inputs.{without_last, line_of, lines_of};
ghost use Rattle.draw_lines.specs.Inputs.{PiecesAreLines, LinesLoseTheirEnds, HeadBeforeSeparator};

/// The head of an input, and what follows the separator line, byte for byte.
pub fn split_input(bytes: &[u8]) -> (&[u8], &[u8])
    ensures head { result.0.now ≡ head_of bytes.now }
    ensures rest { lines_of result.1.now ≡ command_lines bytes.now }
    ensures after { pieces result.1.now ≡ after_separator (pieces bytes.now) }
{
    let mut at = 0;
    let mut rest = bytes;
    while let Some((piece, after)) = first_piece(rest) {
        if is_separator(piece) {
            return (&bytes[..at], after);
        }
        at += piece.len();
        rest = after;
    }
    (bytes, rest)
}

/// The first line without its end, and the bytes after it. `None` exactly where there are no bytes.
pub fn first_line(bytes: &[u8]) -> Option<(&[u8], &[u8])>
    ensures lines { MatchOption result (bytes.now ≡ [])
        (λ cut. lines_of bytes.now ≡ cut.0.now ∷ lines_of cut.1.now) }
    ensures cut { IfSome result (λ cut. IsFirstLine bytes.now cut.0.now cut.1.now) }
    ensures shorter { IfSome result (λ cut. length cut.1.now < length bytes.now) }
{
    let (piece, rest) = first_piece(bytes)?;
    Some((line_of(piece), rest))
}

/// The first line with its line feed, and the bytes after it. `None` exactly where there are no
/// bytes.
fn first_piece(bytes: &[u8]) -> Option<(&[u8], &[u8])>
    ensures pieces { MatchOption result (bytes.now ≡ [])
        (λ cut. IsFirstPiece bytes.now cut.0.now cut.1.now) }
    ensures whole { IfSome result (λ cut. cut.0.now ++ cut.1.now ≡ bytes.now) }
    ensures some { IfSome result (λ cut. 0 < length cut.0.now) }
{
    for (i, byte) in bytes.iter().enumerate() {
        if *byte == b'\n' {
            return Some(bytes.split_at(i + 1));
        }
    }
    if bytes.is_empty() {
        None
    } else {
        Some((bytes, &[]))
    }
}

/// Whether the line is the one between the head and the commands.
fn is_separator(piece: &[u8]) -> bool
    ensures { result ≡ is_separator piece.now }
{
    line_of(piece) == b"--".as_slice()
}

/// A line without its end: its line feed, and then one carriage return.
fn line_of(piece: &[u8]) -> &[u8]
    ensures { result.now ≡ line_of piece.now }
{
    without_last(without_last(piece, b'\n'), b'\r')
}

/// The bytes without a last one that is `byte`.
fn without_last(bytes: &[u8], byte: u8) -> &[u8]
    ensures { result.now ≡ without_last byte bytes.now }
{
    match bytes.split_last() {
        Some((last, front)) if *last == byte => front,
        _ => bytes,
    }
}

/// The pieces of bytes are the bytes cut into lines, and no other list is: they join to the bytes,
/// none is empty, none has a line feed but as its last byte, and only the last may lack one. Does
/// nothing.
pub fn law_pieces_are_lines()
    ensures { PiecesAreLines }
{}

/// A line is a piece without its end: without its line feed, without a carriage return and a line
/// feed, or without a carriage return. Of two carriage returns one stays, and a piece that ends in
/// neither is its own line.
pub fn law_lines_lose_their_ends()
    ensures { LinesLoseTheirEnds }
{}

/// The head is the bytes before the first separator, a piece whose line is `--`, and the command
/// lines are the lines of the pieces after it. Where no piece is a separator, the head is the whole
/// input, and there are no command lines.
pub fn law_head_before_separator()
    ensures { HeadBeforeSeparator }
{}
