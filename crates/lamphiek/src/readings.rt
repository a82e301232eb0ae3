// The controller splits a reading; the plant room opens the six words.
ghost use Rattle.std.specs.Prelude.{◌≡◌};
ghost use Rattle.shares.specs.Sharing.{split, reconstruction};
ghost use Rattle.lamphiek.specs.Layout.{six_in};
ghost use Rattle.lamphiek.specs.Readings.{shares_left, value_left};

use shares::{DealerShare, Disagree, OutOfRange, Shares, WorkerShare, reconstruct, share};

// The shares of a reading under two mask words. Number 11.
#[unsafe(no_mangle)]
pub extern "C" fn lamphiek_split(reading: i64, l1: u32, l2: u32, shares: &mut [u32; 6]) -> u32
    ensures number { result ≡ (split 32 reading l1 l2).0 }
    ensures words { shares.new
        ≡ shares_left (split 32 reading l1 l2) shares.old }
{
    let Ok(s) = share(reading, l1, l2) else {
        return OutOfRange::NUMBER;
    };
    *shares = [s.p0.l1, s.p0.l2, s.p1.m, s.p1.l, s.p2.m, s.p2.l];
    0
}

// The value that six words stand for. Number 10.
#[unsafe(no_mangle)]
pub extern "C" fn lamphiek_open(shares: &[u32; 6], value: &mut i64) -> u32
    ensures number { result ≡ (reconstruction 32 (six_in shares.now)).0 }
    ensures value { value.new
        ≡ value_left (reconstruction 32 (six_in shares.now)) value.old }
{
    let s = Shares {
        p0: DealerShare {
            l1: shares[0],
            l2: shares[1],
        },
        p1: WorkerShare {
            m: shares[2],
            l: shares[3],
        },
        p2: WorkerShare {
            m: shares[4],
            l: shares[5],
        },
    };
    let Ok(x) = reconstruct(s) else {
        return Disagree::NUMBER;
    };
    *value = x;
    0
}
