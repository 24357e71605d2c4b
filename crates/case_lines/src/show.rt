// An answer as the lines of the text have it.
use answer::DimpsyholtAnswer;
use lines;
use std::io;

// What a place holds as it is lent.
pub const AS_LENT: u32 = u32::MAX;

// The line that a text begins with, as it stands there.
pub fn line(rt: &impl Print, text: &[u8]) -> io::Result<()> {
    let end = lines::find(text, b'\n').unwrap_or(text.len());
    rt.write_all(&text[..end])?;
    println!(rt)
}

// The nine numbers.
pub fn answer(rt: &impl Print, a: DimpsyholtAnswer) -> io::Result<()> {
    print!(rt; "answer {} {} {} {}", a.kind, a.number, a.step, a.position)?;
    print!(rt; " {} {} {}", a.conclusion, a.variable, a.value)?;
    println!(rt; " {} {}", a.changed, a.judged)
}

// The places that are not as they were lent.
pub fn written(rt: &impl Print, places: &[u32]) -> io::Result<()> {
    print!(rt; "written")?;
    for start in places {
        if *start < AS_LENT {
            print!(rt; " {start}")?;
        }
    }
    println!(rt)
}
