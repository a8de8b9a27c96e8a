// Products and reciprocals of field elements.
use crate::input::first;
use field::{Element, Field};

fn element(rt: &impl Print, found: Element) {
    print::line(rt, found.answer, &[found.value]);
}

pub(crate) fn product(rt: &impl Print, a: &[u8], b: &[u8], f: Field) {
    element(rt, field::product(first(a), first(b), f));
}

pub(crate) fn reciprocal(rt: &impl Print, a: &[u8], f: Field) {
    element(rt, field::reciprocal(first(a), f));
}
