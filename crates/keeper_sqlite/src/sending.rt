//! That a keeper over a file may cross from one thread to another.

use crate::sqlite_keeper::SqliteKeeper;
use crate::supposing::AnyFile;
use sqlite::{FileFrom, FileStore, MemStore};

fn sent<T: Send>() {}

fn values_may_cross_threads() {
    sent::<SqliteKeeper<FileStore<FileFrom<AnyFile>>>>();
    sent::<SqliteKeeper<MemStore>>();
}
