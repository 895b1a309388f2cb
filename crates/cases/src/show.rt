// The lines that are printed. What stands in the script is printed byte for byte, since it need not be text.
use sheet::Answer;
use std::fmt::Display;
use std::io;

// A line of some bytes.
pub fn bytes(rt: &impl Print, line: &[u8]) -> io::Result<()> {
    rt.write_all(line)?;
    println!(rt)
}

// A line with a call and what it answers.
pub fn answer(rt: &impl Print, line: &[u8], answer: Answer) -> io::Result<()> {
    rt.write_all(line)?;
    let Answer {
        number,
        place,
        value,
    } = answer;
    println!(rt; " number {number} place {place} value {value}")
}

// A line of numbers.
pub fn numbers<N: Display>(rt: &impl Print, label: &str, numbers: &[N]) -> io::Result<()> {
    print!(rt; "{label}")?;
    for number in numbers {
        print!(rt; " {number}")?;
    }
    println!(rt)
}
