ghost use Rattle.std.specs.Prelude.{◌≡◌, position};
ghost use Rattle.std.specs.Iterator.{YieldsFirstRef, item_count};
ghost use Rattle.text_forms.specs.Tokens.{is_blank, is_inked, tokens};

/// The tokens of a line, from left to right: the texts between blanks, which are spaces and tabs
/// only. No token is empty.
#[derive(Drop)]
pub struct Tokens<'a>(pub &'a [u8]);

impl<'a> Iterator for Tokens<'a> {
    type Item = &'a [u8];

    ghost next_gives = { YieldsFirstRef (λ s. tokens s.0.now) };

    ghost remaining = { item_count (λ s. tokens s.0.now) };

    fn next(&mut self) -> Option<&'a [u8]> {
        let line = self.0;
        let (_, text) = line.split_at(first_inked(line).unwrap_or(line.len()));
        let (token, rest) = text.split_at(first_blank(text).unwrap_or(text.len()));
        self.0 = rest;
        if token.is_empty() { None } else { Some(token) }
    }
}

fn is_blank(byte: u8) -> bool
    ensures { result ≡ is_blank byte }
{
    byte == b' ' || byte == b'\t'
}

fn first_inked(text: &[u8]) -> Option<usize>
    ensures { result ≡ position is_inked text.now }
{
    text.iter().position(|b| !is_blank(*b))
}

fn first_blank(text: &[u8]) -> Option<usize>
    ensures { result ≡ position is_blank text.now }
{
    text.iter().position(|b| is_blank(*b))
}
