//! A small pool, taken and given back by hand, and a block that is lent.
ghost use Rattle.std.specs.Prelude.{◌≡◌, ◌≤◌, true};

use dma_pool::{Lent, NoRun, Pool};
use std::test::Fail;

/// Whether the pool has no run for so many bytes. If it has one, it goes back at once.
fn refuses(pool: &mut Pool, bytes: u32) -> bool
    requires { 1 ≤ bytes }
    ensures { result ≡ true → pool.new ≡ pool.old }
{
    match pool.take(bytes) {
        Ok(block) => {
            pool.give(block);
            false
        }
        Err(NoRun) => true,
    }
}

/// Opens two windows in a row on the first byte of a block, which stays what it was.
fn opens_twice(lent: &mut Lent) -> bool
    ensures { lent.new ≡ lent.old }
{
    let bytes = u64::from(lent.bytes());
    let whole = lent.window(768, 768, 768 + bytes);
    let begins = whole.place(768);
    whole.close();
    let empty = lent.window(0, 0, 0);
    let same = empty.place(0) == begins && empty.from() == empty.to();
    empty.close();
    same
}

#[test]
fn takes_the_first_fit(rt: HostRuntime) -> Result<(), Fail> {
    let mut pool = Pool::new(rt.alloc(), 4)?;
    let Ok(first) = pool.take(129) else {
        panic!(rt; "129 bytes");
    };
    let Ok(second) = pool.take(128) else {
        panic!(rt; "128 bytes");
    };
    assert!(rt; first.address() == 0 && first.bytes() == 129);
    assert!(rt; second.address() == 256 && second.bytes() == 128);
    assert!(rt; pool.free() == 1);
    assert!(rt; refuses(&mut pool, 200));
    pool.give(first);
    let Ok(third) = pool.take(200) else {
        panic!(rt; "200 bytes");
    };
    assert!(rt; third.address() == 0);
    pool.give(third);
    assert!(rt; pool.free() == 3);
    pool.give(second);
    Ok(())
}

#[test]
fn takes_all(rt: HostRuntime) -> Result<(), Fail> {
    let mut pool = Pool::new(rt.alloc(), 4)?;
    let Ok(all) = pool.take(512) else {
        panic!(rt; "512 bytes");
    };
    assert!(rt; refuses(&mut pool, 1));
    assert!(rt; pool.free() == 0);
    pool.give(all);
    let Ok(one) = pool.take(1) else {
        panic!(rt; "1 byte");
    };
    assert!(rt; one.address() == 0 && pool.free() == 3);
    let mut lent = one.lend();
    assert!(rt; lent.address() == 0 && lent.bytes() == 1);
    let window = lent.window(768, 768, 769);
    assert!(rt; window.from() == 768 && window.to() == 769 && window.place(769) == 1);
    window.close();
    assert!(rt; opens_twice(&mut lent));
    pool.give(lent.back());
    Ok(())
}
