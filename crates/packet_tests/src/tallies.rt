use full::Full;
use listed::Listed;
use std::process::Abort;
use tally::{CountedPairs, Pair, Refusal, Tally};

fn pair(station: u8, handset: u8) -> Pair {
    Pair { station, handset }
}

fn refused(rt: &impl Abort, answer: Result<(), Refusal>, at: Pair) {
    assert_eq!(rt; answer, Err(Refusal { pair: at }));
}

fn granted(rt: &impl Abort, answer: Result<(), Refusal>) {
    assert!(rt; answer.is_ok());
}

// Station 2 has sent 17 messages to handset 9, and station 0 three.
fn counts<T: CountedPairs>(rt: &impl Abort) {
    let mut seen = T::blank();
    assert_eq!(rt; seen.counted(), 0);
    granted(rt, seen.raise(pair(2, 9), 17));
    granted(rt, seen.raise(pair(0, 9), 3));
    // a lower number leaves the larger
    granted(rt, seen.raise(pair(2, 9), 5));
    assert_eq!(rt; seen.count(pair(2, 9)), 17);
    assert_eq!(rt; seen.count(pair(2, 10)), 0);
    assert_eq!(rt; seen.count(pair(9, 2)), 0);
    assert_eq!(rt; seen.counted(), 2);
    assert!(rt; seen.next_counted(pair(0, 0)) == Some((pair(0, 9), 3)));
    assert!(rt; seen.next_counted(pair(0, 9)) == Some((pair(0, 9), 3)));
    assert!(rt; seen.next_counted(pair(0, 10)) == Some((pair(2, 9), 17)));
    assert!(rt; seen.next_counted(pair(0, 200)) == Some((pair(2, 9), 17)));
    assert!(rt; seen.next_counted(pair(2, 10)) == None);
}

// A refusal names the pair and leaves the counts.
fn refuses<T: CountedPairs>(rt: &impl Abort) {
    let mut seen = T::blank();
    granted(rt, seen.raise(pair(7, 31), 8191));
    refused(rt, seen.raise(pair(7, 31), 8192), pair(7, 31));
    refused(rt, seen.raise(pair(8, 0), 1), pair(8, 0));
    refused(rt, seen.raise(pair(0, 32), 1), pair(0, 32));
    refused(rt, seen.raise(pair(3, 4), 65535), pair(3, 4));
    assert_eq!(rt; seen.count(pair(7, 31)), 8191);
    assert_eq!(rt; seen.counted(), 1);
}

// Each of two has the larger count somewhere.
fn joins<T: CountedPairs>(rt: &impl Abort) {
    let mut one = T::blank();
    let mut other = T::blank();
    granted(rt, one.raise(pair(1, 1), 10));
    granted(rt, one.raise(pair(5, 1), 2));
    granted(rt, other.raise(pair(1, 1), 4));
    granted(rt, other.raise(pair(3, 1), 6));
    granted(rt, one.join(&other));
    assert_eq!(rt; one.count(pair(1, 1)), 10);
    assert_eq!(rt; one.count(pair(3, 1)), 6);
    assert_eq!(rt; one.count(pair(5, 1)), 2);
    assert_eq!(rt; one.counted(), 3);
}

#[test]
fn full(rt: HostRuntime) {
    counts::<Full>(&rt);
    refuses::<Full>(&rt);
    joins::<Full>(&rt);
}

#[test]
fn listed(rt: HostRuntime) {
    counts::<Listed>(&rt);
    refuses::<Listed>(&rt);
    joins::<Listed>(&rt);
}

// Raises the first `pairs` pairs to 1.
fn first<T: Tally>(rt: &impl Abort, pairs: usize) -> T {
    let mut seen = T::blank();
    for pair in (0..pairs).map(Pair::at) {
        granted(rt, seen.raise(pair, 1));
    }
    seen
}

// A listed tally has room for 96 pairs: a 97th is refused at the last of the 97, wherever it comes in.
#[test]
fn the_97th_pair(rt: HostRuntime) {
    let mut seen = first::<Listed>(&rt, 96);
    refused(&rt, seen.raise(pair(3, 0), 1), pair(3, 0));
    refused(&rt, seen.raise(pair(7, 31), 1), pair(7, 31));
    assert_eq!(rt; seen.counted(), 96);

    // those from (0, 1) to (3, 0), and then (0, 0)
    let mut later = Listed::blank();
    for pair in (1..97).map(Pair::at) {
        granted(&rt, later.raise(pair, 1));
    }
    refused(&rt, later.raise(pair(0, 0), 1), pair(3, 0));
    refused(&rt, later.join(&seen), pair(3, 0));
    assert_eq!(rt; later.count(pair(0, 0)), 0);

    let all = first::<Full>(&rt, 256);
    assert_eq!(rt; all.counted(), 256);
}
