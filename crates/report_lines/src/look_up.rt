//! What a table of words says of a code and of a text.
ghost use Rattle.std.specs.Prelude.{◌≡◌, map};
ghost use Rattle.std.specs.Option.{option_map};
ghost use Rattle.report_lines.specs.Tables.{word_in, text_in};

/// The word of a code, or `None` where the table has none.
#[tactic(auto, unfolding(crate::specs::Tables::word_in))]
pub fn word_of(mut table: &[(u32, &'static [u8])], code: u32) -> Option<&'static [u8]>
    ensures { option_map (λ word. word.now) result ≡ word_in (map (λ w. (w.0, w.1.now)) table.entry.now) code }
{
    while let [entry, rest @ ..] = table {
        if entry.0 == code {
            return Some(entry.1);
        }
        table = rest;
    }
    None
}

/// The word of a text, or `None` where the table has none.
#[tactic(auto, unfolding(crate::specs::Tables::text_in))]
pub fn word_of_text(
    mut table: &[(&'static [u8], &'static [u8])],
    text: &[u8],
) -> Option<&'static [u8]>
    ensures { option_map (λ word. word.now) result ≡ text_in (map (λ w. (w.0.now, w.1.now)) table.entry.now) text.now }
{
    while let [entry, rest @ ..] = table {
        if entry.0 == text {
            return Some(entry.1);
        }
        table = rest;
    }
    None
}
