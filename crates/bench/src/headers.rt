//! Checksums of 1,500 bytes, and rewritings of a frame.
ghost use Rattle.packet_headers.specs.Rewriting.{CanRewrite};

use crate::words::next_number;
use anyhow::anyhow;
use inet_checksum::checksum;
use packet_headers::{Flow, set_source, view};
use sample_frames::QUERY;
use std::env::Args;

/// Takes the checksum of the payload this number of times, with its first byte changed each time, and adds them up.
fn sum_often(payload: &mut [u8], count: u64) -> u64 {
    let mut total = 0u64;
    for turn in 0..count {
        total = total.wrapping_add(u64::from(checksum(payload)));
        if let Some(first) = payload.first_mut() {
            *first = (turn & 0xff) as u8;
        }
    }
    total
}

/// Rewrites the source this number of times, each time to another one, and answers the checksum of the frame then.
fn rewrite_often(frame: &mut [u8], flow: &Flow, count: u64) -> u16
    requires { CanRewrite frame.old flow.now }
{
    for turn in 0..count {
        set_source(
            frame,
            flow,
            (turn & 0xffff_ffff) as u32,
            (turn & 0xffff) as u16,
        );
    }
    checksum(frame)
}

/// Tells what as many checksums and as many rewritings come to as the words say.
pub fn run<R: Print>(rt: &R, words: &mut Args) -> anyhow::Result<()> {
    let checksums = next_number(words, "how many checksums?")?;
    let rewritings = next_number(words, "how many rewritings?")?;
    let mut payload = [0x5a; 1500];
    println!(rt;
        "{checksums} checksums of 1500 bytes: {}",
        sum_often(&mut payload, checksums)
    )?;
    let mut frame = QUERY;
    let flow = view(&frame, 42).map_err(|answer| anyhow!("{answer:?}"))?;
    println!(rt;
        "{rewritings} rewritings: {}",
        rewrite_often(&mut frame, &flow, rewritings)
    )?;
    Ok(())
}
