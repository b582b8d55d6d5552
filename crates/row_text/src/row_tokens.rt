// The tokens of a row in two columns.
ghost use Rattle.std.specs.Prelude.{◌+◌, ◌-◌, ◌*◌, ◌≤◌, ◌≡◌, length, MatchOption};
ghost use Rattle.row_text.specs.LineLimits as LineLimits;

// The tokens that the columns hold: one more than an entry takes, so that a line can say a row that is too long.
pub const TOKENS: usize = 65_536;

// The kinds and the value types of the tokens are the first `count` of each column. These are no vectors of crate
// arrayvec, since `first_types` may lend more value types than there are tokens.
#[derive(Drop)]
pub struct Tokens {
    kinds: [u8; TOKENS],
    types: [u8; TOKENS],
    count: usize,
    ghost fits: { count ≤ LineLimits.room },
}

impl Tokens {
    pub fn new() -> Tokens
        ensures { result.count ≡ 0 }
    {
        Tokens {
            kinds: [0; TOKENS],
            types: [0; TOKENS],
            count: 0,
        }
    }

    // How many tokens there are.
    pub fn len(&self) -> usize
        ensures { result ≡ self.now.count }
    {
        self.count
    }

    pub fn kinds(&self) -> &[u8]
        ensures { length result.now ≡ self.now.count }
    {
        &self.kinds[..self.count]
    }

    pub fn types(&self) -> &[u8]
        ensures { length result.now ≡ self.now.count }
    {
        self.first_types(self.count)
    }

    // So many value types, for a row whose columns may not match.
    pub fn first_types(&self, end: usize) -> &[u8]
        requires { end ≤ LineLimits.room }
        ensures { length result.now ≡ end }
    {
        &self.types[..end]
    }

    pub fn clear(&mut self)
        ensures { self.new.count ≡ 0 }
    {
        self.count = 0;
    }

    // One more token, if there is room for it.
    pub fn push(&mut self, kind: u8, value_type: u8) -> Option<()>
        ensures { self.old.count ≤ self.new.count }
    {
        let place = self.count;
        if place < TOKENS {
            self.kinds[place] = kind;
            self.types[place] = value_type;
            self.count = place + 1;
            Some(())
        } else {
            None
        }
    }

    // The tokens from `first` on stand so often, if there is room for them.
    pub fn repeat(&mut self, first: usize, times: usize) -> Option<()>
        requires { first ≤ self.old.count }
        ensures { MatchOption result (self.new.count ≡ self.old.count)
            (λ _. self.new.count ≡ first + (self.old.count - first) * times) }
    {
        let past = self.count;
        let length = past - first;
        let end = length.checked_mul(times)?.checked_add(first)?;
        if end > TOKENS {
            return None;
        }
        for place in past..end {
            self.kinds[place] = self.kinds[place - length];
            self.types[place] = self.types[place - length];
        }
        self.count = end;
        Some(())
    }
}
