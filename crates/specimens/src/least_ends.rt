// U10: the end that strinc gives above a prefix, the least (theorem strinc_tight of format), where there is none, and where there is no room.
use show::Hex;
use std::io;

fn end_line(rt: &impl Print, prefix: &[u8], out: &mut [u8]) -> io::Result<()> {
    if prefix.is_empty() {
        print!(rt; "no bytes")?;
    }
    print!(rt; "{}: ", Hex(prefix))?;
    let r = ends::strinc(prefix, out);
    show::line(rt, r, out);
    Ok(())
}

pub fn least_ends(rt: &impl Print) -> io::Result<()> {
    let mut out = [0u8; 8];
    let mut none = [0u8; 0];
    println!(rt; "least ends")?;
    end_line(rt, b"\x0a\xff", &mut out)?;
    end_line(rt, b"\x41", &mut out)?;
    end_line(rt, b"\x0a\x0b", &mut out)?;
    end_line(rt, b"\x00\xff\xff", &mut out)?;
    end_line(rt, b"\xff", &mut out)?;
    end_line(rt, b"", &mut out)?;
    end_line(rt, b"\x0a\xff", &mut none)?;
    end_line(rt, b"\xff", &mut none)
}
