//! The limits of a site: each number stands here once, and contracts cite it by its name.

/// The most bytes of a command file.
pub const COMMAND_FILE_MAX: usize = 65_536;

/// The largest number that a field of a command file can say: nine digits.
pub const FIELD_NUMBER_MAX: u32 = 999_999_999;

/// The largest size that a field of a command file can say, in bytes.
pub const FIELD_SIZE_MAX: u64 = 1_125_899_906_842_623;

/// The most bytes of a line of a script, without the line feed that ends it.
pub const LINE_MAX: usize = 4096;

/// The most bytes of a path.
pub const PATH_MAX: usize = 1024;

/// The most bytes of a name: of an owner, a group, a file system, an archive set, a library or a volume.
pub const NAME_MAX: usize = 32;

/// The most bytes of a file.
pub const FILE_SIZE_MAX: u64 = 16_777_216;

/// The most files of a site.
pub const FILE_COUNT_MAX: usize = 65_536;

/// The largest inode number; the least is 1.
pub const INODE_MAX: u32 = 4_294_967_294;

/// The most volumes of a site.
pub const VOLUME_COUNT_MAX: usize = 1024;

/// The most members of an archive run: the files that it copies.
pub const MEMBER_COUNT_MAX: u32 = 512;

/// The most sections of a copy: the pieces of a file that lie on volumes.
pub const SECTION_COUNT_MAX: u32 = 8;

/// The most blocks of a cache, of 4,096 bytes each.
pub const CACHE_BLOCKS_MAX: u32 = 16_777_216;

/// The most bytes of a journal's area.
pub const JOURNAL_SIZE_MAX: u64 = 268_435_456;

/// The most bytes of the payload of a journal's record: what it holds behind its gate and its length.
pub const PAYLOAD_MAX: u32 = 1_048_576;

/// The first second since 1970 that is no moment: each moment is below it.
pub const END_OF_TIME: u64 = 1_099_511_627_776;
