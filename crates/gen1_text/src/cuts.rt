//! Parts of a text: its pieces, lines and white space (docs/TEAM_TEXT.md, "Export text", "Packed line").
ghost use Rattle.std.specs.Prelude.{◌≡◌, ◌≤◌, ◌==◌, length, option_map};
ghost use Rattle.std.specs.List.{after_first, before_first, position_or_len};
ghost use Rattle.gen1_text.specs.MemberLines.{has_inside, pieces_of, text_after, trimmed};

// The text without the white space around it.
pub(crate) fn trimmed(text: &[u8]) -> &[u8]
    ensures { result.now ≡ trimmed text.now }
{
    text.trim_ascii()
}

// What follows a key, if the line begins with it.
#[tactic(auto, unfolding(crate::specs::MemberLines::text_after))]
pub(crate) fn text_after<'a>(line: &'a [u8], key: &[u8]) -> Option<&'a [u8]>
    ensures { option_map (λ rest. rest.now) result ≡ text_after key.now line.now }
{
    if line.starts_with(key) {
        Some(&line[key.len()..])
    } else {
        None
    }
}

// Whether a part occurs in the line.
pub(crate) fn has_inside(line: &[u8], part: &[u8]) -> bool
    ensures { result ≡ has_inside part.now line.now }
{
    let mut rest = line;
    while let Some((_, others)) = rest.split_first() {
        if rest.starts_with(part) {
            return true;
        }
        rest = others;
    }
    false
}

// The index of the first such byte, or the length if there is none.
fn place_of(text: &[u8], byte: u8) -> usize
    ensures value { result ≡ position_or_len (λ b. b == byte) text.now }
    ensures bound { result ≤ length text.now }
{
    for i in 0..text.len() {
        if text[i] == byte {
            return i;
        }
    }
    text.len()
}

// The text before the first such byte; all of it if there is none.
pub(crate) fn text_before(text: &[u8], byte: u8) -> &[u8]
    ensures { result.now ≡ before_first (λ b. b == byte) text.now }
{
    &text[..place_of(text, byte)]
}

// The text after the first such byte; empty if there is none.
pub(crate) fn text_behind(text: &[u8], byte: u8) -> &[u8]
    ensures { result.now ≡ after_first (λ b. b == byte) text.now }
{
    let place = place_of(text, byte);
    if place < text.len() {
        &text[place + 1..]
    } else {
        &[]
    }
}

// The pieces between separators, from the first on, each without the white space around it.
#[derive(Drop)]
pub(crate) struct Pieces<'a> {
    rest: Option<&'a [u8]>,
    separator: u8,
}

impl<'a> Pieces<'a> {
    ghost use Rattle.gen1_text.specs.MemberLines.{pieces_left};

    pub(crate) fn new(text: &'a [u8], separator: u8) -> Self
        ensures { pieces_left result ≡ pieces_of separator text.now }
    {
        Pieces {
            rest: Some(text),
            separator,
        }
    }
}

// How many pieces the separators make.
pub(crate) fn piece_count(text: &[u8], separator: u8) -> usize
    ensures { result ≡ length (pieces_of separator text.now) }
{
    Pieces::new(text, separator).count()
}

impl<'a> Iterator for Pieces<'a> {
    ghost use Rattle.std.specs.Iterator.{YieldsFirstRef, item_count};
    ghost use Rattle.gen1_text.specs.MemberLines.{pieces_left};

    type Item = &'a [u8];

    ghost next_gives = { YieldsFirstRef pieces_left };

    ghost remaining = { item_count pieces_left };

    fn next(&mut self) -> Option<&'a [u8]> {
        let rest = self.rest?;
        let place = place_of(rest, self.separator);
        if place < rest.len() {
            self.rest = Some(&rest[place + 1..]);
            Some(trimmed(&rest[..place]))
        } else {
            self.rest = None;
            Some(trimmed(rest))
        }
    }
}
