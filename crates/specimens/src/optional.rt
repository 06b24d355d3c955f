// U2: word 7 on type sheets. Before a type it makes that optional, wherever a type may stand; straight before another 7, or before none, it is no type.

use std::io;

fn sheet_line(rt: &impl Print, ty: &[u32]) -> io::Result<()> {
    if sheet::admit_type(ty) {
        println!(rt; "admitted")
    } else {
        println!(rt; "not admitted")
    }
}

fn before_a_type(rt: &impl Print) -> io::Result<()> {
    println!(rt;
        "word 7: at the top, as a field, an alternative, behind a tag and a predicate of 7, with a group between"
    )?;
    sheet_line(rt, &[7, 1])?;
    sheet_line(rt, &[5, 2, 7, 3, 1])?;
    sheet_line(rt, &[6, 1, 1, 7, 1])?;
    sheet_line(rt, &[6, 1, 7, 7, 1])?;
    sheet_line(rt, &[5, 2, 4, 7, 7, 1])?;
    sheet_line(rt, &[7, 5, 1, 7, 1])
}

fn before_none(rt: &impl Print) -> io::Result<()> {
    println!(rt;
        "before another 7, at the end, before a word that is no kind, with a word too many"
    )?;
    sheet_line(rt, &[7, 7, 1])?;
    sheet_line(rt, &[6, 1, 7, 7, 7, 1])?;
    sheet_line(rt, &[7])?;
    sheet_line(rt, &[5, 1, 7])?;
    sheet_line(rt, &[7, 8])?;
    sheet_line(rt, &[7, 0])?;
    sheet_line(rt, &[7, 1, 1])
}

// It counts as a word of the 4,096: a record of Ints, the first of them optional.
fn words(rt: &impl Print) -> io::Result<()> {
    let mut most = [1u32; 4096];
    let mut over = [1u32; 4097];
    println!(rt; "4,096 and 4,097 words, one of them a 7")?;
    most[0] = 5;
    most[1] = 4093;
    most[2] = 7;
    sheet_line(rt, &most)?;
    over[0] = 5;
    over[1] = 4094;
    over[2] = 7;
    sheet_line(rt, &over)
}

pub fn optional(rt: &impl Print) -> io::Result<()> {
    before_a_type(rt)?;
    before_none(rt)?;
    words(rt)
}
