//! Kernels over marks, each mark a digit, at more marks than a vector of lanes has.
use std::alloc::{AllocError, Global};
use vx_vector::{
    are_fine, are_first_places, combine_marks, count_mark, has_fault, invert_marks, settle_marks,
};

/// Marks by their digits: one vector of lanes and three marks more.
const MARKS: &[u8] = b"0123012301230123012";

fn marks(alloc: Global, digits: &[u8]) -> Result<Vec<u8>, AllocError> {
    let mut marks = Vec::new(alloc);
    for digit in digits {
        marks.push(digit.saturating_sub(b'0'))?;
    }
    Ok(marks)
}

/// The left marks combined with the right ones, where there are as many.
fn combined(alloc: Global, left: &[u8], right: &[u8]) -> Result<Vec<u8>, AllocError> {
    let mut left = marks(alloc, left)?;
    let right = marks(alloc, right)?;
    if left.len() != right.len() {
        return Err(AllocError);
    }
    combine_marks(&mut left, right.as_slice());
    Ok(left)
}

/// The digits of marks.
fn digits(alloc: Global, marks: &[u8]) -> Result<String, AllocError> {
    let mut text = String::new(alloc);
    for mark in marks {
        text.push(char::from(mark.saturating_add(b'0')))?;
    }
    Ok(text)
}

/// A line for each kernel.
pub fn lines(alloc: Global) -> Result<String, AllocError> {
    let mut settled = marks(alloc, MARKS)?;
    settle_marks(&mut settled);
    let mut inverted = marks(alloc, MARKS)?;
    invert_marks(&mut inverted);
    let made = combined(alloc, b"0000111122223333012", b"0123012301230123210")?;
    let settled = digits(alloc, &settled)?;
    let inverted = digits(alloc, &inverted)?;
    let made = digits(alloc, &made)?;
    format!(in alloc; "settled {settled}\ninverted {inverted}\ncombined {made}\n")
}

/// What is said of marks that are fine but for the last, and of places that are the first but for the last.
pub fn answers(alloc: Global) -> Result<String, AllocError> {
    let fine = marks(alloc, b"0000000000000000000")?;
    let null = marks(alloc, b"0000000000000000001")?;
    let fault = marks(alloc, b"0000000000000000012")?;
    let are_fine = [are_fine(&fine), are_fine(&null), are_fine(&fault)];
    let have_faults = [has_fault(&fine), has_fault(&null), has_fault(&fault)];
    let ones = count_mark(MARKS, b'1');
    let first = [
        are_first_places(&[0, 1, 2, 3, 4, 5]),
        are_first_places(&[0, 1, 2, 3, 4, 6]),
        are_first_places(&[0, 1, 3, 4]),
        are_first_places(&[]),
    ];
    format!(in alloc; "fine {are_fine:?}\nfaults {have_faults:?}\nones {ones}\nfirst {first:?}\n")
}
