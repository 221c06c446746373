// Numbers by which calls are looked up. Nothing rests on them but time: what is found by one is
// compared with what is wanted.

use rdx_term::{Name, Term};

/// How far a number looks at a term: so deep, and at so many items of each list or bytes of each text.
#[derive(Clone, Copy)]
pub(crate) struct Sight {
    depth: usize,
    width: usize,
}

impl Sight {
    /// At the arguments and their items alone. What lies deeper counts by how many nodes it has.
    pub(crate) fn near() -> Sight {
        Sight { depth: 2, width: 8 }
    }

    /// At all.
    pub(crate) fn whole() -> Sight {
        Sight {
            depth: usize::MAX,
            width: usize::MAX,
        }
    }

    // One level deeper.
    fn inside(self) -> Sight {
        Sight {
            depth: self.depth.saturating_sub(1),
            width: self.width,
        }
    }
}

// 2^64 divided by the golden ratio: products with it spread well.
const GOLDEN: u64 = 0x9E37_79B9_7F4A_7C15;

// The number with one more mixed in.
#[inline(always)]
fn mix(number: u64, more: u64) -> u64 {
    (number.rotate_left(5) ^ more).wrapping_mul(GOLDEN)
}

// The lower half of the number, as its bits stand.
#[inline(always)]
fn lower(n: i128) -> u64 {
    (n.cast_unsigned() & 0xFFFF_FFFF_FFFF_FFFF) as u64
}

// With the text.
#[inline(always)]
fn with_text(number: u64, sight: Sight, text: &str) -> u64 {
    let bytes = text.as_bytes();
    let mut number = mix(number, bytes.len() as u64);
    for byte in &bytes[..bytes.len().min(sight.width)] {
        number = mix(number, *byte as u64);
    }
    number
}

// With the term and its marks.
fn with_term(number: u64, sight: Sight, t: &Term) -> u64 {
    match t {
        Term::Hole => mix(number, 1),
        Term::Int(n) => mix(mix(number, 2), lower(*n)),
        Term::Bool(b) => mix(number, if *b { 4 } else { 3 }),
        Term::Str(text) => with_text(mix(number, 5), sight, text.as_str()),
        Term::Sym(name) => with_text(mix(number, 6), sight, name.text()),
        Term::List(node) => {
            let mut number = mix(mix(number, 7), node.nodes() as u64);
            if let Some(place) = node.mark() {
                number = mix(number, place as u64);
            }
            let items = node.items();
            number = mix(number, items.len() as u64);
            if sight.depth == 0 {
                return number;
            }
            for i in 0..items.len().min(sight.width) {
                number = with_term(number, sight.inside(), &items[i]);
            }
            number
        }
    }
}

/// The number of a call of what goes by this name, for this term, as far as it is looked at.
#[inline(never)]
pub(crate) fn digest(sight: Sight, name: &Name, args: &Term) -> u64 {
    with_term(with_text(0, sight, name.text()), sight, args)
}
