// How the programs write a table's shape.
use std::fmt;
use units::{Kind, Shape};

// "k m", or "k m one".
#[derive(Clone, Copy)]
pub struct Named(pub Shape);

impl fmt::Display for Named {
    fn fmt<W: fmt::Write>(&self, f: &mut fmt::Formatter<W>) -> fmt::Result {
        let shape = self.0;
        write!(f, "{} {}", shape.k, shape.m)?;
        match shape.kind {
            Kind::Plain => Ok(()),
            Kind::WithOne => write!(f, " one"),
        }
    }
}
