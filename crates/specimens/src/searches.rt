// U3: the alternative that a tag finds in a union, how many are left behind it, and how many were looked at.
use std::io;

// The place of its type (0: none), those left behind it, and those looked at, of the union at `at`.
fn search_line(rt: &impl Print, ty: &[u32], at: usize, tag: u64) -> io::Result<()> {
    if !sheet::admit_type(ty) {
        return println!(rt; "not admitted");
    }
    let found = sheet::alternative(ty, at, tag);
    let place = found.place.unwrap_or(0);
    println!(rt;
        "tag {tag}: place {place}, left {}, looked at {}",
        found.left, found.looked
    )
}

fn repeated_tags(rt: &impl Print) -> io::Result<()> {
    let ty = [6u32, 6, 3, 1, 1, 1, 4, 1, 1, 1, 5, 1, 9, 1];
    println!(rt; "discriminants 3 1 4 1 5 9")?;
    search_line(rt, &ty, 0, 3)?;
    search_line(rt, &ty, 0, 1)?;
    search_line(rt, &ty, 0, 9)?;
    search_line(rt, &ty, 0, 2)?;
    search_line(rt, &ty, 0, 4294967297)
}

// The sheet's discriminants: 0 to 89.
fn number_doses(ty: &mut [u32; 182]) {
    for i in 0..90 {
        ty[2 * i + 2] = i as u32;
    }
}

fn dose_lines(rt: &impl Print, ty: &[u32; 182]) -> io::Result<()> {
    search_line(rt, ty, 0, 0)?;
    search_line(rt, ty, 0, 7)?;
    search_line(rt, ty, 0, 8)?;
    search_line(rt, ty, 0, 88)?;
    search_line(rt, ty, 0, 89)?;
    search_line(rt, ty, 0, 90)?;
    search_line(rt, ty, 0, 4294967297)
}

// The dose union: ninety alternatives, each an Int.
fn ninety_alternatives(rt: &impl Print) -> io::Result<()> {
    let mut ty = [1u32; 182];
    ty[0] = 6;
    ty[1] = 90;
    number_doses(&mut ty);
    println!(rt; "ninety alternatives")?;
    dose_lines(rt, &ty)
}

// The first sheet has an optional type among those that are passed.
fn other_types(rt: &impl Print) -> io::Result<()> {
    println!(rt; "alternatives of other types, none, a union inside a record")?;
    search_line(
        rt,
        &[6u32, 4, 0, 5, 3, 1, 1, 1, 1, 7, 1, 2, 6, 0, 2, 2],
        0,
        2,
    )?;
    search_line(
        rt,
        &[6u32, 4, 0, 5, 3, 1, 1, 1, 1, 4, 7, 2, 6, 0, 2, 2],
        0,
        2,
    )?;
    search_line(
        rt,
        &[6u32, 4, 0, 5, 3, 1, 1, 1, 1, 4, 7, 2, 6, 0, 2, 2],
        0,
        3,
    )?;
    search_line(rt, &[6u32, 0], 0, 0)?;
    search_line(rt, &[5u32, 1, 6, 2, 1, 5, 0, 1, 2], 2, 1)
}

pub fn searches(rt: &impl Print) -> io::Result<()> {
    repeated_tags(rt)?;
    ninety_alternatives(rt)?;
    other_types(rt)
}
