//! Opens the image on the standard input and builds it again. Prints its number of bytes, and with the word
//! `times` the microseconds of each.
#![tactic(auto)]

use castor_image::{Image, build, open_image};
use std::env::Env;
use std::io::{Read, Write};
use std::time::Instant;
use std::{env, io};

/// Whether the word `times` was given.
fn wants_times<R: Env + AllocGlobal>(rt: &R) -> bool {
    match env::args(rt) {
        Ok(args) => {
            for word in args.skip(1) {
                if word.as_str() == "times" {
                    return true;
                }
            }
            false
        }
        Err(_) => false,
    }
}

fn main(rt: HostRuntime) -> io::Result<()> {
    let alloc = rt.alloc();
    let wants_times = wants_times(&rt);
    let mut bytes = Vec::new(alloc);
    rt.stdin().read_to_end(&mut bytes)?;
    let start = Instant::now(&rt)?;
    let opened = open_image(alloc, bytes.as_slice());
    let opening = start.elapsed(&rt)?.as_micros();
    match opened {
        Ok(image) => {
            let start = Instant::now(&rt)?;
            let length = built_length(&rt, &image);
            let building = start.elapsed(&rt)?.as_micros();
            println!(rt; "{length} bytes")?;
            if wants_times {
                println!(rt; "open {opening}")?;
                println!(rt; "build {building}")?;
            }
        }
        Err(_) => println!(rt; "no image, or no memory")?,
    }
    Ok(())
}

/// The number of bytes that are built of what an image holds, and 0 where there is no memory.
fn built_length<R: AllocGlobal>(rt: &R, image: &Image<'_>) -> usize {
    match build(rt.alloc(), image.head(), image.code(), image.decoded()) {
        Ok(bytes) => bytes.len(),
        Err(_) => 0,
    }
}
