// A union's alternatives: the one with a tag, and the place behind some of them.
ghost use Rattle.std.specs.Prelude.{◌≡◌, true};
ghost use Rattle.sheet.specs.Places.{Searches, SkipsAlts};

use crate::types::{alternatives_end, type_end};

// What the search for a tag gives: the place of the alternative's type, if there is one; how many alternatives stand behind it; how many were looked at, which is its
// place from 1, or all of them.
#[derive(Clone, Copy)]
pub struct Choice {
    pub place: Option<usize>,
    pub left: u32,
    pub looked: u32,
}

// The first alternative with the tag, of the union at `at` of an admitted sheet. It looks at none behind that one.
pub fn alternative(ty: &[u32], at: usize, tag: u64) -> Choice
    ensures { Searches ty.now at tag result.place result.left result.looked }
{
    let none = Choice {
        place: None,
        left: 0,
        looked: 0,
    };
    if at >= ty.len() || ty.len() - at < 2 {
        return none;
    }
    let count = ty[at + 1];
    let mut place = at + 2;
    for passed in 0..count {
        if place >= ty.len() {
            return none;
        }
        let inside = place + 1;
        if u64::from(ty[place]) == tag {
            return Choice {
                place: Some(inside),
                left: count - passed - 1,
                looked: passed + 1,
            };
        }
        match type_end(ty, inside, format::MAX_SHEET_GROUPS) {
            Some(end) => place = end,
            None => return none,
        }
    }
    Choice {
        looked: count,
        ..none
    }
}

// The place behind `count` alternatives from `at` on, of an admitted sheet, where it is never none.
pub fn skip_alternatives(ty: &[u32], at: usize, count: u32) -> usize
    ensures { SkipsAlts ty.now at count result }
{
    if at > ty.len() {
        return 0;
    }
    alternatives_end(ty, at, count, format::MAX_SHEET_GROUPS).unwrap_or(0)
}

// The place behind the alternatives left of a union, where it is asked for: they are not passed in vain.
pub fn union_end(ty: &[u32], at: usize, left: u32, asked: bool) -> usize
    ensures { asked ≡ true → SkipsAlts ty.now at left result }
{
    if asked {
        return skip_alternatives(ty, at, left);
    }
    at
}
