// Colour names by their beginning (U13). First the rows on standard input: the two ends for a type, first values and a beginning, or the refusal. Then names looked
// for among keys: which lie between the ends, which begin so by their bytes, and what wrong ends take in.
#![tactic(auto)]

mod names; // names.rt: a name on a line, and whether it begins with given bytes
mod rows; // rows.rt: calls worked by hand
mod searches; // searches.rt: names looked for among keys

fn main(rt: HostRuntime) -> std::io::Result<()> {
    let rt = show::Out(rt);
    let mut table = [0u8; 4096];
    let n = io::read_full(0, &mut table);
    rows::rows(&rt, show::first(&table, n))?;
    searches::searches(&rt)
}
