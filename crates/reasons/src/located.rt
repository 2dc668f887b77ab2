//! In which section and function of a module a place is, by the sizes before them.

use wasm_binary::readers::{
    CODE_SECTION, CUSTOM_SECTION, IMPORT_SECTION, Number, Spot, What, Whole, at_most, read_u32,
};

/// Where a place is.
#[derive(Clone, Copy, Default)]
pub struct Located {
    /// The id of its section; None at the beginning of one, and after all.
    pub section: Option<u8>,
    /// The function, imports counted first, if it is in the body of one.
    pub func: Option<u64>,
    /// The largest id of the sections before it.
    pub last: u8,
}

// The part at the front of these bytes, which has its size before it, as much of it as is there, and what
// follows it; nothing if its size cannot be read.
fn sized(bytes: &[u8]) -> (&[u8], &[u8]) {
    match read_u32(bytes) {
        Ok((size, rest)) => rest.split_at(at_most(size, rest).len()),
        Err(_) => (&[], &[]),
    }
}

// Whether a place with this many bytes left is in a part that begins with this many left and ends with this
// many. Where two parts meet, it is at the end of the first, unless it is the beginning of a part.
fn is_in(left: usize, first: usize, last: usize, begins: bool) -> bool {
    left <= first && (left > last || (left == last && !begins))
}

// The function, after this many imports, in whose body in the code section with these contents a place is,
// this many bytes from its end; None for a fault of the whole section. A body has a byte at least.
fn body_at(contents: &[u8], left: usize, imports: u32, what: What) -> Option<u64> {
    match what {
        What::Longer { whole, .. } | What::Cut { whole, .. } => match whole {
            Whole::Section => return None,
            Whole::Body => {}
        },
        _ => {}
    }
    let begins = matches!(what, What::Number(Number::BodySize));
    let (count, mut rest) = read_u32(contents).ok()?;
    for own in 0..rest.len().min(count as usize) {
        let after = sized(rest).1;
        if is_in(left, rest.len(), after.len(), begins) {
            return Some((own as u64).saturating_add(u64::from(imports)));
        }
        rest = after;
    }
    None
}

/// Where a place is in a module with these sections.
pub fn locate(sections: &[u8], spot: Spot) -> Located {
    let mut found = Located::default();
    let begins = matches!(spot.what, What::Section | What::NoCode { .. });
    let mut imports = 0u32;
    let mut rest = sections;
    for _ in 0..sections.len() {
        let Some((id, from_size)) = rest.split_first() else {
            return found;
        };
        let (contents, after) = sized(from_size);
        if is_in(spot.left, from_size.len(), after.len(), begins) {
            let left = spot.left.saturating_sub(after.len());
            found.section = Some(*id);
            if *id == CODE_SECTION {
                found.func = body_at(contents, left, imports, spot.what);
            }
            return found;
        }
        if spot.left == rest.len() {
            return found;
        }
        if *id == IMPORT_SECTION {
            imports = read_u32(contents).unwrap_or((0, contents)).0;
        }
        if *id != CUSTOM_SECTION {
            found.last = *id;
        }
        rest = after;
    }
    found
}
