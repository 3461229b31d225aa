// The greatest records that are read and the least that are not, each made in a buffer, checked, and printed with the
// number and the place of its refusal, or 0 and 0; and joins: the greatest joint networks that are given, with 0 and the record's length, and
// the least that are refused. What is small is proved in the definitions of `records` instead. Each piece of a line (a text, a space, a number,
// a line feed) is written by itself: what cannot be written of one is left out alone, and the pieces behind it are still tried.
#![tactic(auto)]

ghost use Rattle.std.specs.Prelude.{◌+◌, ◌≤◌};

use entries::{check_list, check_sheet};
use joining::join;
use layout::{Form, LARGEST_NETWORK, Refusal};
use numbers::{put_u16, put_u32};
use records::check_network;

// Stores a count as two bytes.
fn put(out: &mut [u8; 40000], at: usize, v: usize)
    requires { (at + 2 ≤ 40000) × (v ≤ 65535) }
{
    put_u16(out, at, v as u16);
}

// Stores the length of a record and the version.
fn put_head(out: &mut [u8; 40000], total: usize)
    requires { (4 ≤ total) × (total ≤ 40000) }
{
    put_u32(out, 0, (total - 4) as u32);
    out[4] = 1;
}

// Stores n numbers from first on at the heads of parts of a size behind a base.
fn put_numbers(out: &mut [u8; 40000], base: usize, size: usize, first: usize, n: usize)
    requires { (base ≤ 1000) × (2 ≤ size) × (size ≤ 27) × (first ≤ 1000) × (n ≤ 513) }
{
    let mut o = base;
    for i in 0..n {
        put(out, o, first + i);
        o += size;
    }
}

// Stores n edges behind a base, sorted, among the boxes with ids from first on: the to ends are the first of them, and the from ends the 200
// from the 31st on.
fn put_edges(out: &mut [u8; 40000], base: usize, first: usize, n: usize)
    requires { (base ≤ 16000) × (first ≤ 1000) × (n ≤ 4097) }
{
    for j in 0..n {
        let o = base + 5 * j;
        put(out, o, first + j / 200);
        put(out, o + 2, first + 30 + j % 200);
    }
}

// A network of own nodes with ids from first on, no routes, and policies that add 1, 2, 3 and so on. Gives its length.
fn put_network(
    out: &mut [u8; 40000],
    first: usize,
    nodes: usize,
    edges: usize,
    policies: usize,
) -> usize
    requires { (first ≤ 1000) × (nodes ≤ 513) × (edges ≤ 4097) × (policies ≤ 65) }
    ensures { result ≤ 40000 }
{
    let part = 10 + 13 * policies;
    let wires = part + 27 * nodes;
    let total = wires + 5 * edges;
    put_head(out, total);
    put(out, 5, nodes);
    put(out, 7, edges);
    out[9] = policies as u8;
    put_numbers(out, 21, 13, 1, policies);
    put_numbers(out, part, 27, first, nodes);
    put_edges(out, wires, first, edges);
    total
}

// Entries with ids from 1 on, fragment 0 in a sheet, and no routes.
fn put_entries(out: &mut [u8; 40000], size: usize, n: usize, total: usize)
    requires { (2 ≤ size) × (size ≤ 12) × (n ≤ 513) × (4 ≤ total) × (total ≤ 40000) }
{
    put_head(out, total);
    put(out, 5, n);
    put_numbers(out, 7, size, 1, n);
}

// Prints a number and a space.
fn print(rt: &HostRuntime, n: usize) {
    let _ = print!(rt; "{n}");
    let _ = print!(rt; " ");
}

// Prints the end of a line: 0 and a length, or the number and the place of the refusal.
fn print_end(rt: &HostRuntime, outcome: Result<usize, Refusal>) {
    let (number, place) = match outcome {
        Ok(length) => (0, length),
        Err(refusal) => (u8::from(refusal.class), refusal.place),
    };
    let _ = print!(rt; ": ");
    print(rt, usize::from(number));
    let _ = print!(rt; "{place}");
    let _ = println!(rt);
}

// The same of a check, whose form is not printed: 0 and 0.
fn print_check(rt: &HostRuntime, check: Result<Form, Refusal>) {
    print_end(rt, check.map(|_| 0));
}

// A network with these counts.
fn try_network(rt: &HostRuntime, nodes: usize, edges: usize, policies: usize)
    requires { (nodes ≤ 513) × (edges ≤ 4097) × (policies ≤ 65) }
{
    let mut out = [0u8; 40000];
    let total = put_network(&mut out, 1, nodes, edges, policies);
    let _ = print!(rt; "network ");
    print(rt, nodes);
    print(rt, edges);
    print(rt, policies);
    print_check(rt, check_network(&out[0..total]));
}

// One node and 64 policies, of which one adds 0. There is no edge, so that none is used.
fn try_added(rt: &HostRuntime, policy: usize)
    requires { policy ≤ 63 }
{
    let mut out = [0u8; 40000];
    let total = put_network(&mut out, 1, 1, 0, 64);
    put(&mut out, 21 + 13 * policy, 0);
    let _ = print!(rt; "0 added by policy ");
    print(rt, policy);
    print_check(rt, check_network(&out[0..total]));
}

// The largest network, cut to a length or with bytes behind it.
fn try_length(rt: &HostRuntime, length: usize)
    requires { length ≤ 40000 }
{
    let mut out = [0u8; 40000];
    put_network(&mut out, 1, 512, 4096, 64);
    let _ = print!(rt; "bytes of the largest network ");
    print(rt, length);
    print_check(rt, check_network(&out[0..length]));
}

// A network of n nodes and e edges and one of m nodes and d edges, with 64 policies each and the ids of the second behind those of the first,
// joined in a buffer of some bytes.
fn try_join(rt: &HostRuntime, n: usize, e: usize, m: usize, d: usize, room: usize)
    requires { (n ≤ 513) × (e ≤ 4097) × (m ≤ 513) × (d ≤ 4097) × (room ≤ 40000) }
{
    let mut one = [0u8; 40000];
    let length = put_network(&mut one, 1, n, e, 64);
    let mut other = [0u8; 40000];
    let behind = put_network(&mut other, 1 + n, m, d, 64);
    let mut out = [0u8; 40000];
    let _ = print!(rt; "join ");
    print(rt, n);
    print(rt, e);
    print(rt, m);
    print(rt, d);
    let _ = print!(rt; "in ");
    print(rt, room);
    print_end(
        rt,
        join(&one[0..length], &other[0..behind], &mut out[0..room]),
    );
}

// A route list with this many entries.
fn try_list(rt: &HostRuntime, n: usize)
    requires { n ≤ 513 }
{
    let mut out = [0u8; 40000];
    let total = 7 + 11 * n;
    put_entries(&mut out, 11, n, total);
    let _ = print!(rt; "list ");
    print(rt, n);
    print_check(rt, check_list(&out[0..total]));
}

// A sheet with this many entries.
fn try_sheet(rt: &HostRuntime, n: usize)
    requires { n ≤ 513 }
{
    let mut out = [0u8; 40000];
    let total = 7 + 12 * n;
    put_entries(&mut out, 12, n, total);
    let _ = print!(rt; "sheet ");
    print(rt, n);
    print_check(rt, check_sheet(&out[0..total]));
}

fn main(rt: HostRuntime) {
    let rt = &rt;
    try_network(rt, 0, 0, 0);
    try_network(rt, 1, 0, 0);
    try_network(rt, 512, 0, 0);
    try_network(rt, 513, 0, 0);
    try_network(rt, 512, 4096, 1);
    try_network(rt, 512, 4097, 1);
    try_network(rt, 1, 0, 64);
    try_network(rt, 1, 0, 65);
    try_network(rt, 512, 4096, 64);
    try_added(rt, 0);
    try_added(rt, 63);
    try_length(rt, 9);
    try_length(rt, 10);
    try_length(rt, LARGEST_NETWORK - 1);
    try_length(rt, LARGEST_NETWORK);
    try_length(rt, LARGEST_NETWORK + 1);
    try_list(rt, 0);
    try_list(rt, 512);
    try_list(rt, 513);
    try_sheet(rt, 0);
    try_sheet(rt, 512);
    try_sheet(rt, 513);
    try_join(rt, 511, 4096, 1, 0, LARGEST_NETWORK);
    try_join(rt, 256, 2048, 256, 2048, LARGEST_NETWORK);
    try_join(rt, 256, 2048, 256, 2048, LARGEST_NETWORK - 1);
    try_join(rt, 256, 2048, 257, 2048, LARGEST_NETWORK);
    try_join(rt, 512, 0, 1, 0, LARGEST_NETWORK);
    try_join(rt, 512, 0, 512, 0, LARGEST_NETWORK);
    try_join(rt, 256, 2048, 256, 2049, LARGEST_NETWORK);
    try_join(rt, 256, 4096, 256, 1, LARGEST_NETWORK);
    try_join(rt, 256, 2048, 257, 2049, LARGEST_NETWORK);
}
