// Words that are repeated.
use crate::words::Word;
use machine_text::Sym;

// How many variables there are: a, b, c and d.
pub(crate) const VARIABLES: usize = 4;

// How often: a number, and so many times each of the variables.
#[derive(Clone, Copy, Debug, PartialEq, Eq)]
pub(crate) struct Times {
    parts: [u64; VARIABLES + 1],
}

impl Times {
    pub const ONCE: Times = Times {
        parts: [1, 0, 0, 0, 0],
    };

    pub const NEVER: Times = Times {
        parts: [0, 0, 0, 0, 0],
    };

    // Without variables.
    pub fn of(number: u64) -> Times {
        Times::growing(number, 0)
    }

    // A number, and so many times the first variable.
    pub fn growing(number: u64, factor: u64) -> Times {
        Times {
            parts: [number, factor, 0, 0, 0],
        }
    }

    // With so many times a variable more; variables are counted from 0 on.
    pub fn plus_variable(self, variable: usize, factor: u64) -> Times {
        let mut times = self;
        if let Some(part) = times.parts.get_mut(variable.saturating_add(1)) {
            *part = part.saturating_add(factor);
        }
        times
    }

    // What doesn't depend on the variables.
    pub fn number(self) -> u64 {
        self.parts[0]
    }

    // How often the first variable.
    pub fn factor(self) -> u64 {
        self.factor_of(0)
    }

    // How often a variable.
    pub fn factor_of(self, variable: usize) -> u64 {
        match self.parts.get(variable.saturating_add(1)) {
            Some(part) => *part,
            None => 0,
        }
    }

    // Whether it has no variable.
    pub fn is_number(self) -> bool {
        self.parts[1] | self.parts[2] | self.parts[3] | self.parts[4] == 0
    }

    pub fn is_once(self) -> bool {
        self.is_number() && self.number() == 1
    }

    pub fn is_never(self) -> bool {
        self.is_number() && self.number() == 0
    }

    pub fn plus(self, other: Times) -> Times {
        let mut sum = self;
        for (part, more) in sum.parts.iter_mut().zip(other.parts.iter()) {
            *part = part.saturating_add(*more);
        }
        sum
    }

    // What is left of it; nothing where there is less.
    pub fn minus(self, other: Times) -> Times {
        let mut rest = self;
        for (part, less) in rest.parts.iter_mut().zip(other.parts.iter()) {
            *part = part.saturating_sub(*less);
        }
        rest
    }

    // What is left of it, where there is as much.
    pub fn without(self, other: Times) -> Option<Times> {
        let rest = self.minus(other);
        if rest.plus(other) == self {
            Some(rest)
        } else {
            None
        }
    }

    // The most that is in both.
    pub fn common(self, other: Times) -> Times {
        let mut least = self;
        for (part, most) in least.parts.iter_mut().zip(other.parts.iter()) {
            *part = (*part).min(*most);
        }
        least
    }

    // So many times it.
    pub fn multiple(self, count: u64) -> Times {
        let mut product = self;
        for part in product.parts.iter_mut() {
            *part = part.saturating_mul(count);
        }
        product
    }

    // What is left when it is shared out among so many.
    pub fn rest_of(self, count: u64) -> Times {
        if count == 0 {
            return self;
        }
        self.minus(self.share(count).multiple(count))
    }

    // The share of one of so many, without what is left.
    pub fn share(self, count: u64) -> Times {
        if count == 0 {
            return Times::NEVER;
        }
        let mut share = self;
        for part in share.parts.iter_mut() {
            *part /= count;
        }
        share
    }

    // With values for the variables.
    pub fn put(self, values: &[Times; VARIABLES]) -> Times {
        let mut sum = Times::of(self.number());
        for (value, factor) in values.iter().zip(self.parts.iter().skip(1)) {
            sum = sum.plus(value.multiple(*factor));
        }
        sum
    }

    // A number that tells rows of these apart, by what stood before it.
    pub fn mark(self, before: u64) -> u64 {
        let mut mark = before;
        for part in self.parts {
            mark = marked(mark, part);
        }
        mark
    }

    // With a value for the first variable, where there is no other.
    pub fn at(self, value: u64) -> u64 {
        self.number()
            .saturating_add(self.factor().saturating_mul(value))
    }

    // With something else in place of the first variable.
    pub fn changed(self, change: Change) -> Times {
        let factor = self.factor();
        let rest = self.minus(Times::growing(0, factor));
        rest.plus(match change {
            Change::Multiple(count) => Times::growing(0, factor.saturating_mul(count)),
            Change::Next => Times::growing(factor, factor),
            Change::Zero => Times::NEVER,
        })
    }
}

// A number that tells rows of numbers apart, with one more; by the multiplier of Knuth's linear generator.
pub(crate) fn marked(mark: u64, number: u64) -> u64 {
    (mark ^ number).wrapping_mul(6_364_136_223_846_793_005) ^ mark >> 29
}

// What stands for the variables: this for the first, and the others for themselves.
pub(crate) fn with_first(first: Times) -> [Times; VARIABLES] {
    let none = Times::NEVER;
    [
        first,
        none.plus_variable(1, 1),
        none.plus_variable(2, 1),
        none.plus_variable(3, 1),
    ]
}

// What comes in place of the first variable: so many times it, one more than it, or 0.
#[derive(Clone, Copy, Debug, PartialEq, Eq)]
pub(crate) enum Change {
    Multiple(u64),
    Next,
    Zero,
}

// A word, so often.
#[derive(Clone, Copy, Debug, PartialEq, Eq)]
pub(crate) struct Block {
    pub word: Word,
    pub times: Times,
}

impl Block {
    // A symbol by itself.
    pub fn symbol(symbol: Sym) -> Block {
        Block::once(Word::of(symbol))
    }

    // A word, once.
    pub fn once(word: Word) -> Block {
        Block {
            word,
            times: Times::ONCE,
        }
    }

    pub fn is_symbol(self) -> bool {
        self.word.length() == 1 && self.times.is_once()
    }
}
