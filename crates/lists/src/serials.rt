// The serials of a table: whether one but 0 stands twice. A pass by residues modulo 4,096 tells serials apart that were issued in a row; where two
// residues agree, the serials are told apart class by class, a class being those with one quotient by 4,096. Each place is passed once in both.
ghost use Rattle.std.specs.Prelude.{◌≡◌};
ghost use Rattle.lists.specs.Lists.{limit};
ghost use Rattle.lists.specs.Search.{differ};
ghost use Rattle.lists.specs.Inner.{Low, residues_differ, Chained};

use crate::LIMIT;
use crate::search::wide;

// The places of each class, as a chain from the last to the first: `head` has the number past the last place of each class, and `link` at a place
// the number past the place of its class before it; 0 ends a chain.
#[derive(Drop)]
struct Chains {
    head: [u16; 256],
    link: [u16; LIMIT],
}

// No two serials but 0 agree modulo 4,096.
fn residues_differ(s: &[u32; LIMIT]) -> bool
    ensures { result ≡ residues_differ limit s.now }
{
    let mut flag = [0u8; 4096];
    for &a in s {
        if a != 0 {
            let r = (a % 4096) as usize;
            if flag[r] == 1 {
                return false;
            }
            flag[r] = 1;
        }
    }
    true
}

// Each place goes in front of the chain of its class.
fn chains_of(s: &[u32; LIMIT]) -> Chains
    requires { Low s.now }
    ensures { Chained s.now result }
{
    let mut head = [0u16; 256];
    let mut link = [0u16; LIMIT];
    for i in 0..LIMIT {
        let h = (s[i] / 4096) as usize;
        link[i] = head[h];
        head[h] = i as u16 + 1;
    }
    Chains { head, link }
}

// No serial but 0 stands twice: no two of a class have one residue. A class stamps residues with its own number, so that no stamp is wiped off.
fn chains_differ(s: &[u32; LIMIT], chains: Chains) -> bool
    requires { Low s.now × Chained s.now chains }
    ensures { result ≡ differ limit s.now }
{
    let mut stamp = [0u16; 4096];
    for h in 0..256 {
        let mark = h as u16 + 1;
        let mut c = wide(chains.head[h]);
        // no index: a chain is followed from link to link
        while 0 < c {
            let p = c - 1;
            let a = s[p];
            if a != 0 {
                let r = (a % 4096) as usize;
                if stamp[r] == mark {
                    return false;
                }
                stamp[r] = mark;
            }
            c = wide(chains.link[p]);
        }
    }
    true
}

// No serial but 0 stands twice.
pub fn all_differ(s: &[u32; LIMIT]) -> bool
    requires { Low s.now }
    ensures { result ≡ differ limit s.now }
{
    residues_differ(s) || chains_differ(s, chains_of(s))
}
