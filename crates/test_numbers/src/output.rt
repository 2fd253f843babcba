//! The answers as text.
use sm_base::push_whole;
use sm_frac::{Frac, Op, RangePassed};
use std::alloc::Global;

/// The text so far, and whether memory ran out.
#[derive(Drop)]
pub(crate) struct Output {
    bytes: Vec<u8>,
    is_full: bool,
}

impl Output {
    pub(crate) fn new(alloc: Global) -> Output {
        Output {
            bytes: Vec::new(alloc),
            is_full: false,
        }
    }

    pub(crate) fn bytes(&self) -> &[u8] {
        &self.bytes
    }

    pub(crate) fn is_full(&self) -> bool {
        self.is_full
    }

    /// Says that a call ran out of memory.
    pub(crate) fn fail(&mut self) {
        self.is_full = true;
    }

    pub(crate) fn piece(&mut self, piece: &[u8]) {
        self.is_full |= self.bytes.extend_from_slice(piece).is_err();
    }

    pub(crate) fn text(&mut self, text: &str) {
        self.piece(text.as_bytes());
    }

    pub(crate) fn end_line(&mut self) {
        self.piece(b"\n");
    }

    pub(crate) fn whole(&mut self, number: i128) {
        self.is_full |= push_whole(&mut self.bytes, number).is_err();
    }

    /// A blank and the number, or `none`.
    pub(crate) fn place(&mut self, place: Option<usize>) {
        match place {
            Some(place) => self.next(place as i128),
            None => self.text(" none"),
        }
    }

    /// A blank and the number.
    pub(crate) fn next(&mut self, number: i128) {
        self.text(" ");
        self.whole(number);
    }

    /// A blank and the fraction.
    pub(crate) fn fraction(&mut self, fraction: Frac) {
        self.next(fraction.n());
        self.text("/");
        self.whole(fraction.d());
    }

    pub(crate) fn fractions(&mut self, fractions: &[Frac]) {
        for fraction in fractions {
            self.fraction(*fraction);
        }
    }

    /// The step that passed.
    pub(crate) fn passed(&mut self, passed: RangePassed) {
        self.text(" passed");
        self.text(match passed.op {
            Op::Plus => " plus",
            Op::Minus => " minus",
            Op::Times => " times",
            Op::Over => " over",
            Op::Lcm => " lcm",
        });
        self.fraction(passed.left);
        self.fraction(passed.right);
    }
}
