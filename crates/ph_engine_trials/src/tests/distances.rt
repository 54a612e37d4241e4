//! Scripts about distances.
use super::Trial;
use ph_engine::Status;

pub(super) const DISTANCES: [Trial; 5] = [
    // Nearest with ties.
    (
        "put 1 0 1\nput 0 1 2\nput -1 0 3\nput 0 -1 4\nnear 0 0 3\nnear 0 0 0\n\
        near 0 0 4294967295\nnear 5 5 2\n",
        "new\nnew\nnew\nnew\nhit 1 -1 0 3\nhit 1 0 -1 4\nhit 1 0 1 2\nend 3\nend 0\n\
        hit 1 -1 0 3\nhit 1 0 -1 4\nhit 1 0 1 2\nhit 1 1 0 1\nend 4\nhit 41 0 1 2\n\
        hit 41 1 0 1\nend 2\n",
        Status::Clean,
    ),
    // Farthest corner.
    (
        "put 2147483647 2147483647 1\nnear -2147483648 -2147483648 1\n\
        within -2147483648 -2147483648 36893488130239234049\n\
        within -2147483648 -2147483648 36893488130239234050\n\
        within 0 0 340282366920938463463374607431768211455\n",
        "new\nhit 36893488130239234050 2147483647 2147483647 1\nend 1\nend 0\n\
        hit 36893488130239234050 2147483647 2147483647 1\nend 1\n\
        hit 9223372028264841218 2147483647 2147483647 1\nend 1\n",
        Status::Clean,
    ),
    // Within a ball.
    (
        "put 1 0 1\nput 0 1 2\nput -1 0 3\nput 0 -1 4\nput 1 1 5\nwithin 0 0 1\n\
        within 1 1 0\nwithin 1 1 1\nwithin 9 9 3\n",
        "new\nnew\nnew\nnew\nnew\nhit 1 -1 0 3\nhit 1 0 -1 4\nhit 1 0 1 2\nhit 1 1 0 1\n\
        end 4\nhit 0 1 1 5\nend 1\nhit 1 0 1 2\nhit 1 1 0 1\nhit 0 1 1 5\nend 3\nend 0\n",
        Status::Clean,
    ),
    // Each line has a fault or several, and the first in the order of the refusals is told.
    (
        "near 0 0 4294967296\nnear 0 0 -1\n\
        within 0 0 340282366920938463463374607431768211456\nnear 0 2147483648 1\n\
        within 0 -2147483649 1\nnear 0 0\nwithin 0 0 x\nopen boxes 1\n\
        near 2147483648 0 1\nwithin 5 1 1\n",
        "error number\nerror number\nerror number\nerror range\nerror range\n\
        error count\nerror number\nopened\nerror kind\nerror kind\n",
        Status::Refused,
    ),
    // Each number of dimensions.
    (
        "open points 1\nput 4 1\nput -4 2\nput 7 3\nnear 0 2\nwithin 0 16\n\
        open points 3\nput 1 2 3 1\nput 1 2 4 2\nput 9 9 9 3\nnear 1 2 3 2\n\
        within 1 2 3 1\nopen points 8\nput 0 0 0 0 0 0 0 0 1\nput 1 1 1 1 1 1 1 1 2\n\
        near 1 1 1 1 1 1 1 0 2\nwithin 0 0 0 0 0 0 0 0 7\n",
        "opened\nnew\nnew\nnew\nhit 16 -4 2\nhit 16 4 1\nend 2\nhit 16 -4 2\nhit 16 4 1\n\
        end 2\nopened\nnew\nnew\nnew\nhit 0 1 2 3 1\nhit 1 1 2 4 2\nend 2\n\
        hit 0 1 2 3 1\nhit 1 1 2 4 2\nend 2\nopened\nnew\nnew\nhit 1 1 1 1 1 1 1 1 1 2\n\
        hit 7 0 0 0 0 0 0 0 0 1\nend 2\nhit 0 0 0 0 0 0 0 0 0 1\nend 1\n",
        Status::Clean,
    ),
];
