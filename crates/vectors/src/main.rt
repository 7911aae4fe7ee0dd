// Prints hashed ids under murmur. A line is the preshift, the id and the hashed id, in decimal, with a space between; the
// ids are 0, each power of two below 2^64, 2^64-1 and 32 numbers of an xorshift generator, under each of four preshifts.

#![tactic(auto)]

ghost use Rattle.std.specs.Prelude.{◌≡◌, ◌≤◌};
ghost use Rattle.sharding.specs.Specification.{most_preshift};
ghost use Rattle.sharding.specs.placement.Place.{hashed_id};
ghost use Rattle.vectors.specs.Vectors.{murmur_after, xorshift};

use sharding::Sharding;
use sharding::placement::inner;
use std::io;

// The hashed id under murmur and a preshift.
fn hashed(preshift: u8, id: u64) -> u64
    requires { preshift ≤ most_preshift }
    ensures { result ≡ hashed_id (murmur_after preshift) id }
{
    inner::hashed_id(
        Sharding {
            preshift,
            hash: 1,
            minishard_bits: 0,
            shard_bits: 0,
            kind: 0,
        },
        id,
    )
}

// The next number of the generator.
fn next(x: u64) -> u64
    ensures { result ≡ xorshift x }
{
    let a = x ^ x << 13;
    let b = a ^ a >> 7;
    b ^ b << 17
}

fn print_line(rt: &impl Print, preshift: u8, id: u64) -> io::Result<()>
    requires { preshift ≤ most_preshift }
{
    let hashed = hashed(preshift, id);
    println!(rt; "{preshift} {id} {hashed}")
}

fn print_powers(rt: &impl Print, preshift: u8) -> io::Result<()>
    requires { preshift ≤ most_preshift }
{
    for k in 0..64u32 {
        print_line(rt, preshift, 1u64 << k)?;
    }
    Ok(())
}

fn print_random(rt: &impl Print, preshift: u8) -> io::Result<()>
    requires { preshift ≤ most_preshift }
{
    let mut x = 88172645463325252u64;
    for _ in 0..32 {
        x = next(x);
        print_line(rt, preshift, x)?;
    }
    Ok(())
}

fn print_all(rt: &impl Print, preshift: u8) -> io::Result<()>
    requires { preshift ≤ most_preshift }
{
    print_line(rt, preshift, 0)?;
    print_powers(rt, preshift)?;
    print_line(rt, preshift, u64::MAX)?;
    print_random(rt, preshift)
}

fn main(rt: HostRuntime) -> io::Result<()> {
    print_all(&rt, 0)?;
    print_all(&rt, 1)?;
    print_all(&rt, 9)?;
    print_all(&rt, 63)
}
