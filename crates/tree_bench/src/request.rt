//! What the words of the command line ask for.

use crate::points::Kind;

/// How many points of a kind are put in the tree, how often all of them are looked up afterwards, and at how many other
/// points of the kind the nearest are asked for, and how many of them.
#[derive(Clone, Copy)]
pub struct Request {
    pub kind: Kind,
    pub count: u64,
    pub gets: u64,
    pub asked: u64,
    pub n: u32,
}

/// Reads the words `KIND COUNT GETS ASKED N`.
pub fn read_request(words: &[String]) -> Option<Request> {
    let [kind, count, gets, asked, n] = words else {
        return None;
    };
    let kind = match kind.as_str() {
        "uniform" => Kind::Uniform,
        "clustered" => Kind::Clustered,
        _ => return None,
    };
    let Ok(count) = count.parse::<u64>() else {
        return None;
    };
    let Ok(gets) = gets.parse::<u64>() else {
        return None;
    };
    let Ok(asked) = asked.parse::<u64>() else {
        return None;
    };
    let Ok(n) = n.parse::<u32>() else {
        return None;
    };
    Some(Request {
        kind,
        count,
        gets,
        asked,
        n,
    })
}
