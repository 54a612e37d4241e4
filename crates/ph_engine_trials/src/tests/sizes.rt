//! Scripts about the sizes of a tree.
ghost use Rattle.std.specs.Prelude.{◌≤◌};

use super::files::preset;
use super::{Trial, check, check_over, run};
use ph_engine::Status;
use ph_io::MemoryFiles;
use std::process::Abort;

// Scripts about the sizes of a tree.
pub(super) const SIZES: [Trial; 2] = [
    // Stats through layouts.
    (
        "put 0 0 1\nstats\nput 1 1 2\nstats\nput 0 1 3\nstats\ndel 0 1\nstats\ndel 1 1\nstats\n",
        "new\nrows 1 nodes 1 linear 1 cube 0 words 4\nnew\n\
        rows 2 nodes 2 linear 2 cube 0 words 7\nnew\nrows 3 nodes 2 linear 1 cube 1 words 8\n\
        gone 3\nrows 2 nodes 2 linear 2 cube 0 words 7\ngone 2\n\
        rows 1 nodes 1 linear 1 cube 0 words 4\n",
        Status::Clean,
    ),
    // Deepest path.
    (
        "open points 1\nput 0 1\nput 1 1\nput 2 1\nput 4 1\nput 8 1\nput 16 1\nput 32 1\n\
        put 64 1\nput 128 1\nput 256 1\nput 512 1\nput 1024 1\nput 2048 1\nput 4096 1\n\
        put 8192 1\nput 16384 1\nput 32768 1\nput 65536 1\nput 131072 1\nput 262144 1\n\
        put 524288 1\nput 1048576 1\nput 2097152 1\nput 4194304 1\nput 8388608 1\n\
        put 16777216 1\nput 33554432 1\nput 67108864 1\nput 134217728 1\nput 268435456 1\n\
        put 536870912 1\nput 1073741824 1\nstats\nget 0\n",
        "opened\nnew\nnew\nnew\nnew\nnew\nnew\nnew\nnew\nnew\nnew\nnew\nnew\nnew\nnew\nnew\nnew\n\
        new\nnew\nnew\nnew\nnew\nnew\nnew\nnew\nnew\nnew\nnew\nnew\nnew\nnew\nnew\nnew\n\
        rows 32 nodes 32 linear 32 cube 0 words 96\nvalue 1\n",
        Status::Clean,
    ),
];

// A side of the square has one point of its diagonal, far down.
#[test]
fn diagonal_window(rt: HostRuntime) {
    let mut script = String::new(rt.alloc());
    let mut output = String::new(rt.alloc());
    for i in 0..256 {
        let put = format!(in rt.alloc(); "put {i} {i} 1\n").expect(&rt, "memory");
        append(&rt, &mut script, put.as_str());
        append(&rt, &mut output, "new\n");
    }
    append(&rt, &mut script, "stats\nwindow 0 0 255 0\n");
    append(
        &rt,
        &mut output,
        "rows 256 nodes 256 linear 256 cube 0 words 769\nrow 0 0 1\nend 1\n",
    );
    check(
        &rt,
        rt.alloc(),
        &run(script.as_str(), output.as_str(), Status::Clean),
    );
}

// Each point of zeros and ones.
#[test]
fn crowded_cube(rt: HostRuntime) {
    let mut script = String::from_str(rt.alloc(), "open points 8\n").expect(&rt, "memory");
    let mut output = String::from_str(rt.alloc(), "opened\n").expect(&rt, "memory");
    for corner in 0..256 {
        append(&rt, &mut script, "put ");
        push_corner(&rt, &mut script, corner, 8, ' ');
        append(&rt, &mut script, "1\n");
        append(&rt, &mut output, "new\n");
    }
    append(&rt, &mut script, "stats\n");
    append(
        &rt,
        &mut output,
        "rows 256 nodes 2 linear 1 cube 1 words 271\n",
    );
    let mut case = run(script.as_str(), output.as_str(), Status::Clean);
    case.script_bytes = 8000;
    check(&rt, rt.alloc(), &case);
}

// The least node of sixteen dimensions that is smaller as a cube.
#[test]
fn crowded_cube_of_sixteen_dimensions(rt: HostRuntime) {
    let mut records = String::new(rt.alloc());
    for corner in 0..7710 {
        push_corner(&rt, &mut records, corner, 16, ',');
        append(&rt, &mut records, "1\n");
    }
    let script = "open points 16 bits 62\nimport corners.csv\nstats\n\
        put 0 0 0 1 1 1 1 0 0 0 0 1 1 1 1 0 1\nstats\nsave cube.pht\n\
        del 0 0 0 1 1 1 1 0 0 0 0 1 1 1 1 0\nstats\nload cube.pht\nstats\n";
    let output = "opened\nimported 7710\nrows 7710 nodes 2 linear 2 cube 0 words 9776\n\
        new\nrows 7711 nodes 2 linear 1 cube 1 words 9777\nsaved 78224\n\
        gone 1\nrows 7710 nodes 2 linear 2 cube 0 words 9776\n\
        loaded 7711\nrows 7711 nodes 2 linear 1 cube 1 words 9777\n";
    let mut files = MemoryFiles::new(rt.alloc(), 2, 300_000, Vec::new(rt.alloc())).expect(
        &rt, "memory",
    );
    preset(&rt, &mut files, "corners.csv", records.as_bytes());
    let mut case = run(script, output, Status::Clean);
    case.file_bytes = 300_000;
    check_over(&rt, rt.alloc(), &case, &mut files);
}

// So many binary digits of a number, each with a mark behind it.
fn push_corner(rt: &impl Abort, text: &mut String, corner: u32, dims: u32, mark: char)
    requires { dims ≤ 32 }
{
    for place in (0..dims).rev() {
        text.push(if corner >> place & 1 == 1 { '1' } else { '0' })
            .expect(rt, "memory");
        text.push(mark).expect(rt, "memory");
    }
}

fn append(rt: &impl Abort, text: &mut String, more: &str) {
    text.push_str(more).expect(rt, "memory");
}
